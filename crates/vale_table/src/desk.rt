// A seat at its table.
ghost use Rattle.std.specs.Prelude.{◌≡◌};
ghost use Rattle.vale_table.specs.Means.{IsAt};

use crate::lender::Lender;
use crate::seat::Seat;
use crate::table::SharedTable;
use vale_page::Page;

/// A seat at its table, as a lender. It is taken apart by its fields.
#[derive(Drop)]
pub struct Desk<'t, B> {
    /// The table.
    pub table: &'t SharedTable<B>,
    /// The seat, one of that table.
    pub seat: Seat<B>,
    ghost at_table: { IsAt seat table.now },
}

impl<'t, B> Lender<B> for Desk<'t, B> {
    ghost use Rattle.vale_table.specs.Means.{seat_means};
    ghost use Rattle.vale_table.specs.Lending.{IsAlone, CanGive, IsGiven};

    ghost frames = { λ d. (seat_means d.seat).frames };

    ghost hand = { λ d. (seat_means d.seat).hand };

    ghost out = { λ d. (seat_means d.seat).out };

    ghost floors = { λ d. (seat_means d.seat).floors };

    ghost post = { λ d. (seat_means d.seat).post };

    ghost held = { λ d. d.seat.rests.sound };

    fn frames(&self) -> u32 {
        self.table.frames()
    }

    fn claim(&mut self) -> Option<Page<B>> {
        let table = self.table;
        while self.seat.next < table.frames() {
            if let Some(page) = table.try_next(&mut self.seat) {
                return Some(page);
            }
        }
        None
    }

    fn give(&mut self, page: Page<B>)
        requires alone { IsAlone (seat_means self.old.seat).post }
        requires can { CanGive (seat_means self.old.seat).hand page }
        ensures given { IsGiven (seat_means self.old.seat).hand (seat_means self.new.seat).hand (seat_means self.old.seat).out (seat_means self.new.seat).out (seat_means self.old.seat).floors (seat_means self.new.seat).floors page }
        ensures frames { (seat_means self.new.seat).frames ≡ (seat_means self.old.seat).frames }
        ensures post { (seat_means self.new.seat).post ≡ (seat_means self.old.seat).post }
    {
        self.table.take_back(&mut self.seat, page);
    }
}
