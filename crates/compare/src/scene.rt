// What the calls are made on: a set, a river and the river's record as text, each as it was changed for the next call
// alone.
use crate::calls::answer_of;
use crate::kinds::{Call, Change, Kind};
use crate::line::Line;
use crate::records::{Text, no_river};
use crate::set::Figures;
use crate::tally::Tally;
use river::River;
use std::mem;

// What was changed for the next call alone.
#[derive(Default, Drop)]
struct Changes {
    figures: Option<Figures>,
    river: Option<River>,
    text: Option<Text>,
}

#[derive(Drop)]
pub(crate) struct Scene {
    figures: Figures,
    river: River,
    changed: Changes,
    pub tally: Tally,
}

impl Scene {
    pub(crate) fn new() -> Scene {
        Scene {
            figures: Figures::default(),
            river: no_river(),
            changed: Changes::default(),
            tally: Tally::default(),
        }
    }

    // One more line. One without a letter, or whose letter asks for nothing, is only counted.
    pub(crate) fn take(&mut self, line: &Line) {
        self.tally.count_line();
        if let Some(letter) = line.letter {
            self.ask(letter, line);
        }
    }

    // The letter beside its line, here and below: it is taken out of its Option once.
    fn ask(&mut self, letter: u8, line: &Line) {
        match Kind::try_from(letter) {
            Ok(Kind::Set) => {
                self.figures = Figures::of(line);
                self.changed = Changes::default();
            }
            Ok(Kind::Change(change)) => self.change(change, line),
            Ok(Kind::Call(call)) => self.call(call, letter, line),
            Err(_) => {}
        }
    }

    fn changed_river(&mut self) -> &mut River {
        self.changed.river.get_or_insert(self.river)
    }

    fn changed_text(&mut self) -> &mut Text {
        let river = self.changed.river.unwrap_or(self.river);
        self.changed.text.get_or_insert_with(|| Text::of(river))
    }

    // A place that is not there changes nothing.
    fn change(&mut self, change: Change, line: &Line) {
        let place = line.place(0);
        // The arms take different arguments, so that a table of closures is no plainer.
        match change {
            Change::Figure => {
                let figures = self.changed.figures.get_or_insert(self.figures);
                figures.set(place, line.figure(1));
            }
            Change::Cells => self.changed_river().cells = line.figure(0),
            Change::Amount => {
                if let Some(amount) = self.changed_river().amounts.get_mut(place) {
                    *amount = line.signed(1);
                }
            }
            Change::Carry => {
                if let Some(carry) = self.changed_river().carries.get_mut(place) {
                    *carry = line.figure(1);
                }
            }
            Change::Bytes => self.changed_text().put(place, line.others()),
            Change::BytesCopied => self
                .changed_text()
                .copy(place, line.place(1), line.place(2)),
            Change::Length => self.changed_text().set_length(place),
        }
    }

    // A river that was changed for this call alone is then again what it was.
    fn call(&mut self, call: Call, letter: u8, line: &Line) {
        let changed = mem::take(&mut self.changed);
        let figures = changed.figures.unwrap_or(self.figures);
        let mut river = changed.river.unwrap_or(self.river);
        let got = answer_of(call, line, &figures, &mut river, changed.text);
        if changed.river.is_none() {
            self.river = river;
        }
        self.tally.count_call(call, letter, line.expected(), got);
    }
}
