// The calls on a set and a river, each with its arguments from a line and its answer as number, digest and river. Line
// and river stay apart: a struct of both would be made for each line and taken apart in each call.
use crate::digest::{Answer, Digest};
use crate::kinds::Call;
use crate::line::Line;
use crate::records::{Text, no_river};
use crate::set::Figures;
use crate::{frames, pages, records, set};
use kinetics::{Conditions, Temperatures};
use river::{AMOUNTS, Letter, River};
use stoichiometry::{ENTRIES, Refusal, Set};
use transport::{Aired, Flowed};

// The river that a call answers becomes the river; a refused call leaves it.
fn changed(answer: Result<River, Refusal>, river: &mut River) -> Answer {
    *river = answer.unwrap_or(*river);
    Answer::of(&answer, Digest::of_river(river))
}

fn fresh(line: &Line, river: &mut River) -> Answer {
    *river = no_river();
    changed(River::fresh(line.figure(0)), river)
}

fn check(figures: &Figures) -> Answer {
    Answer::of(&rows::check(Set::from(figures)), Digest::START)
}

// A refused set has the digest of rows of zeros.
fn rows(figures: &Figures) -> Answer {
    let answer = rows::rows_of(Set::from(figures));
    let refused = rows::Rows {
        entries: [0; ENTRIES],
    };
    Answer::of(
        &answer,
        Digest::START.with_all(&answer.unwrap_or(refused).entries),
    )
}

fn load(line: &Line, river: &mut River) -> Answer {
    let before = *river;
    let answer = transport::load_river(before, line.figure(0), line.figure(1), line.signed(2));
    changed(answer, river)
}

// A refused flow has the digest of a list of zeros.
fn flow(line: &Line, river: &mut River) -> Answer {
    let answer = transport::flow_river(*river, line.figure(0));
    let refused = Flowed {
        river: *river,
        left: [0; AMOUNTS],
    };
    let flowed = answer.unwrap_or(refused);
    *river = flowed.river;
    Answer::of(&answer, Digest::of_river(river).with_all(&flowed.left))
}

fn air(line: &Line, river: &mut River) -> Answer {
    let before = *river;
    let answer = transport::air_river(
        before,
        line.figure(0),
        line.figure(1),
        line.figure(2),
        line.figure(3),
    );
    let refused = Aired {
        river: before,
        amount: 0,
    };
    let aired = answer.unwrap_or(refused);
    *river = aired.river;
    Answer::of(&answer, Digest::of_river(river).with(aired.amount))
}

fn conditions(line: &Line) -> Conditions {
    let temperatures = Temperatures {
        xh: line.figure(2),
        xn1: line.figure(3),
        xn2: line.figure(4),
        algae: line.figure(5),
        hydrolysis: line.figure(6),
    };
    Conditions {
        seconds: line.figure(0),
        light: line.figure(1),
        temperatures,
    }
}

fn step(line: &Line, figures: &Figures, river: &mut River) -> Answer {
    let before = *river;
    changed(
        step::step_river(Set::from(figures), before, conditions(line)),
        river,
    )
}

// A refused cell has the digest of zeros.
fn totals(line: &Line, figures: &Figures, river: River) -> Answer {
    let answer = totals::totals_of(Set::from(figures), river, line.figure(0));
    Answer::of(
        &answer,
        Digest::START.with_all(&answer.unwrap_or_default().figures()),
    )
}

fn letter(line: &Line, river: River) -> Answer {
    let answer = river::letter_of(river, line.figure(0));
    let byte = answer.map_or(0, Letter::byte);
    Answer::of(&answer, Digest::START.with(i64::from(byte)))
}

// The text of a call that reads one: the river's record, unless it was changed.
fn text_of(text: Option<Text>, river: &River) -> Text {
    text.unwrap_or_else(|| Text::of(*river))
}

// The call of a line. The river that it answers, if it answers one, takes the place of the one that it gets.
pub(crate) fn answer_of(
    call: Call,
    line: &Line,
    figures: &Figures,
    river: &mut River,
    text: Option<Text>,
) -> Answer {
    // The arms take different arguments, so that a table of closures is no plainer.
    match call {
        Call::Check => check(figures),
        Call::Rows => rows(figures),
        Call::Published => set::published(figures),
        Call::Fresh => fresh(line, river),
        Call::Load => load(line, river),
        Call::Flow => flow(line, river),
        Call::Air => air(line, river),
        Call::Step => step(line, figures, river),
        Call::Totals => totals(line, figures, *river),
        Call::Letter => letter(line, *river),
        Call::Frame => frames::frame(line),
        Call::Write => records::written(line, *river),
        Call::Read => records::read(&text_of(text, river)),
        Call::Lines => records::lines(line, &text_of(text, river)),
        Call::Page => pages::written(line, *river),
    }
}
