// Instructions on texts, and those that may be: they read texts where they lie, and make or share others.
ghost use Rattle.std.specs.Prelude.{◌≡◌, ◌+◌, ◌-◌, ◌<◌, ◌≤◌, ◌^◌, Bool, List, Some, false, length, pos, slice_get, true};
ghost use Rattle.vale_base.specs.declared.piece.Piece.{Piece};
ghost use Rattle.vale_state_spec.specs.World.{Text as a_text};
ghost use Rattle.vale_code.specs.Instructions.{comparison_of};
ghost use Rattle.vale_code.specs.Parts.{Parts};
ghost use Rattle.vale_code.specs.Registers.{read};
ghost use Rattle.vale_code.specs.declared.instr.Instr.{Instr};
ghost use Rattle.vale_registers.specs.Cells.{HoldsValue, HasRegister};
ghost use Rattle.vale_turn.specs.Comparing.{compared};
ghost use Rattle.vale_turn.specs.Served.{is_aside, may_want, register_of};
ghost use Rattle.vale_machine.specs.Aside.{HasRuleIn, KeepsFrames, next_in};
ghost use Rattle.vale_machine.specs.View.{HasMemory, Stepped, own_cells, registers_of};

use crate::machine::{Machine, Step};
use vale_base::Text;
use vale_code::{Code, Instr};
use vale_registers::{Shape, shape_at};
use vale_turn::{matched, ordered};

// Whether a comparison holds of two texts.
fn collated(choice: u8, left: &Text, right: &Text) -> bool
    requires { (b : Bool) × (compared (comparison_of choice) (Some (a_text left.now)) (Some (a_text right.now)) ≡ Some b) }
    ensures { compared (comparison_of choice) (Some (a_text left.now)) (Some (a_text right.now)) ≡ Some result }
{
    let order = left.as_slice().cmp(&right.as_slice());
    match choice {
        0 => order.is_eq(),
        1 => order.is_ne(),
        2 => order.is_lt(),
        3 => order.is_le(),
        4 => order.is_gt(),
        5 => order.is_ge(),
        _ => unreachable!(),
    }
}

// The length of a text.
fn count_of(text: &Text) -> i64
    ensures { result ≡ pos (length text.now) }
{
    text.as_slice().len() as i64
}

// A text of a code.
fn text_numbered(code: &Code, number: u32) -> &Text
    requires { number < length code.now.texts }
    ensures { slice_get code.now.texts number ≡ Some result.now }
{
    &code.texts.as_slice()[number as usize]
}

impl Machine {
    // A value goes to another register.
    fn copy(&mut self, to: u32, from: u32) -> Step
        requires base { self.old.top.base ≤ self.old.end }
        requires end { self.old.end ≤ length self.old.cells.items }
        requires room { to < self.old.end - self.old.top.base }
        requires place { self.old.top.place + 1 < 2 ^ 64 }
        requires value { HoldsValue (own_cells self.old) from }
        ensures step { (code : Parts) (taken : List Piece) → Stepped code taken result (next_in code taken self.old (Instr.Copy to from)) self.new }
        ensures keeps { KeepsFrames result self.old self.new }
    {
        match shape_at(self.registers(), from) {
            Shape::Int => {
                let number = self.int(from);
                self.get_int(to, number);
                Step::Going
            }
            Shape::Truth => {
                let truth = self.truth(from);
                self.get_truth(to, truth);
                Step::Going
            }
            Shape::Text => match self.share_text(to, from) {
                Ok(()) => Step::Going,
                Err(_) => Step::Memory,
            },
            Shape::Empty => unreachable!(),
        }
    }

    // Whether a comparison holds of what two registers hold.
    fn compared(&self, choice: u8, left: u32, right: u32) -> bool
        requires base { self.now.top.base ≤ self.now.end }
        requires end { self.now.end ≤ length self.now.cells.items }
        requires right { (b : Bool) × (compared (comparison_of choice) (read (registers_of self.now) left) (read (registers_of self.now) right) ≡ Some b) }
        ensures { compared (comparison_of choice) (read (registers_of self.now) left) (read (registers_of self.now) right) ≡ Some result }
    {
        match shape_at(self.registers(), left) {
            Shape::Int => {
                let first = self.int(left);
                let second = self.int(right);
                ordered(choice, first, second)
            }
            Shape::Truth => {
                let former = self.truth(left);
                let latter = self.truth(right);
                matched(choice, former, latter)
            }
            Shape::Text => {
                let one = self.text(left);
                let other = self.text(right);
                collated(choice, one, other)
            }
            Shape::Empty => unreachable!(),
        }
    }

    // A register gets a text of the code.
    fn quote(&mut self, code: &Code, to: u32, text: u32) -> Step
        requires base { self.old.top.base ≤ self.old.end }
        requires end { self.old.end ≤ length self.old.cells.items }
        requires room { to < self.old.end - self.old.top.base }
        requires place { self.old.top.place + 1 < 2 ^ 64 }
        requires there { text < length code.now.texts }
        ensures step { (taken : List Piece) → Stepped code.now taken result (next_in code.now taken self.old (Instr.Text to text)) self.new }
        ensures keeps { KeepsFrames result self.old self.new }
    {
        let quoted = text_numbered(code, text);
        match Text::from_slice(self.alloc, quoted.as_slice()) {
            Ok(text) => self.take_text(to, text),
            Err(_) => Step::Memory,
        }
    }

    /// An instruction that is done aside from the cells.
    pub(crate) fn aside(&mut self, code: &Code, instr: &Instr) -> Step
        requires base { self.old.top.base ≤ self.old.end }
        requires end { self.old.end ≤ length self.old.cells.items }
        requires aside { is_aside instr.now ≡ true }
        requires room { HasRegister (register_of instr.now) (self.old.end - self.old.top.base) }
        requires place { self.old.top.place + 1 < 2 ^ 64 }
        requires ticks { self.old.left ≤ self.old.given }
        requires right { HasRuleIn code.now self.old instr.now }
        ensures step { (taken : List Piece) → Stepped code.now taken result (next_in code.now taken self.old instr.now) self.new }
        ensures memory { may_want instr.now ≡ false → HasMemory result }
        ensures keeps { KeepsFrames result self.old self.new }
    {
        match instr {
            Instr::Text { to, text } => self.quote(code, *to, *text),
            Instr::Copy { to, from } => self.copy(*to, *from),
            Instr::Cmp {
                to,
                choice,
                left,
                right,
            } => {
                let truth = self.compared(*choice, *left, *right);
                self.get_truth(*to, truth);
                Step::Going
            }
            Instr::Join {
                to,
                left,
                right,
                at,
            } => {
                let outcome = vale_text::join(self.alloc, self.text(*left), self.text(*right));
                self.land_text(*to, *at, outcome)
            }
            Instr::TextLen { to, from } => {
                let count = count_of(self.text(*from));
                self.get_int(*to, count);
                Step::Going
            }
            Instr::Slice {
                to,
                from,
                first,
                end,
                at,
            } => {
                let (begin, limit) = (self.int(*first), self.int(*end));
                let outcome = vale_text::slice(self.alloc, self.text(*from), begin, limit);
                self.land_text(*to, *at, outcome)
            }
            Instr::Byte {
                to,
                from,
                index,
                at,
            } => {
                let outcome = vale_text::byte(self.text(*from), self.int(*index));
                self.land_int(*to, *at, outcome)
            }
            Instr::TextOf { to, from } => match vale_text::text_of(self.alloc, self.int(*from)) {
                Ok(text) => self.take_text(*to, text),
                Err(_) => Step::Memory,
            },
            Instr::IsNum { to, from } => {
                let truth = vale_text::is_number(self.text(*from));
                self.get_truth(*to, truth);
                Step::Going
            }
            Instr::Num { to, from, at } => {
                let outcome = vale_text::number(self.text(*from));
                self.land_int(*to, *at, outcome)
            }
            Instr::Print { from, choice } => self.print(*from, *choice),
            _ => unreachable!(),
        }
    }
}
