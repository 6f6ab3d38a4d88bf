// Where a text goes: into a buffer, or into a count of its bytes. So one writer says both how long the text is and what it
// is.

ghost use Rattle.std.specs.Prelude.{ℕ, List};
ghost use Rattle.text.specs.Decimal.{print_number};
ghost use Rattle.text.specs.Writing.{Room, Appends};
ghost use Rattle.text.specs.Sinks.{SinkLaws, WidthFits, Counts, out_laws, width_laws};

use super::decimal::number_width;
use super::out::Out;

// What takes a text piece by piece.
pub trait Sink {
    // There is room for a text.
    ghost room: { Self → List ℕ → Type 0 };

    // It was taken, with nothing else.
    ghost takes: { Self → List ℕ → Self → Type 0 };

    fn bytes(&mut self, t: &[u8])
        requires { room self.old t.now }
        ensures { takes self.old t.now self.new };

    fn number(&mut self, n: u64)
        requires { room self.old (print_number n) }
        ensures { takes self.old (print_number n) self.new };

    ghost laws: { SinkLaws room takes };
}

impl<'a> Sink for Out<'a> {
    ghost room = { Room };

    ghost takes = { Appends };

    fn bytes(&mut self, t: &[u8]) {
        self.bytes(t);
    }

    fn number(&mut self, n: u64) {
        self.number(n);
    }

    ghost laws = { out_laws };
}

// How many bytes were taken.
#[derive(Clone, Copy)]
pub struct Width(pub usize);

impl Sink for Width {
    ghost room = { WidthFits };

    ghost takes = { Counts };

    fn bytes(&mut self, t: &[u8]) {
        self.0 += t.len();
    }

    fn number(&mut self, n: u64) {
        self.0 += number_width(n);
    }

    ghost laws = { width_laws };
}
