// Instructions that grow at their end.
ghost use Rattle.std.specs.Prelude.{◌≡◌, ◌+◌, ◌<◌, ◌∷◌, ◌++◌, length, slice_set, pos, IfOk, OnOk};
ghost use Rattle.vale_code.specs.declared.instr.Instr.TheVariants as i;
ghost use Rattle.vale_lowering.specs.Instructions.{stuck};
ghost use Rattle.vale_lower_expr.specs.Jumps.{jumps_set};

use std::alloc::Global;
use vale_base::{Memory, Spot};
use vale_code::Instr;

/// What was emitted of a function so far: its instructions.
#[derive(Drop)]
pub struct CodeBuffer {
    pub code: Vec<Instr>,
}

impl CodeBuffer {
    ghost use Rattle.std.specs.Prelude.{[]};

    /// Nothing yet. It takes no memory.
    pub fn new(alloc: Global) -> Self
        ensures { result.code.items ≡ [] }
    {
        CodeBuffer {
            code: Vec::new(alloc),
        }
    }

    /// The place of the next instruction. A place that is 2^32 or more is want of memory.
    pub fn place(&self) -> Result<u32, Memory>
        ensures { IfOk result (λ place. place ≡ length self.now.code.items) }
    {
        let place = self.code.len();
        if place > u32::MAX as usize {
            return Err(Memory);
        }
        Ok(place as u32)
    }

    /// One more instruction.
    pub fn put(&mut self, instr: Instr) -> Result<(), Memory>
        ensures { OnOk result (self.new.code.items ≡ self.old.code.items ++ instr ∷ []) }
    {
        self.code.push(instr)?;
        Ok(())
    }

    /// For what isn't lowered.
    pub fn put_stuck(&mut self, register: u32) -> Result<(), Memory>
        ensures { OnOk result (self.new.code.items ≡ self.old.code.items ++ stuck register) }
    {
        self.put(Instr::Truth {
            to: register,
            choice: 2,
        })
    }

    /// Another instruction at a place, where one stands there: what is jumped to is known only once what is jumped over
    /// was emitted.
    #[tactic(auto, using(crate::proofs::CodeBufferLaws::set_past))]
    pub fn set(&mut self, place: u32, instr: Instr)
        ensures { self.new.code.items ≡ slice_set self.old.code.items place instr }
    {
        if (place as usize) < self.code.len() {
            self.code[place as usize] = instr;
        }
    }

    /// An instruction that is set later, and its place.
    pub fn hold(&mut self) -> Result<u32, Memory>
        ensures place { IfOk result (λ place. place ≡ length self.old.code.items) }
        ensures held { OnOk result (self.new.code.items ≡ self.old.code.items ++ i.Jump 0 ∷ []) }
    {
        let place = self.place()?;
        self.put(Instr::Jump { target: 0 })?;
        Ok(place)
    }

    /// Begins what is done only where the register is false. The place of the jump that is held.
    pub fn begin_or(&mut self, h: u32) -> Result<u32, Memory>
        ensures place { IfOk result (λ place. place ≡ length self.old.code.items + 1) }
        ensures code { OnOk result (self.new.code.items ≡ self.old.code.items ++ i.Unless h (length self.old.code.items + 1 + 1) ∷ i.Jump 0 ∷ []) }
    {
        let target = above(above(self.place()?)?)?;
        self.put(Instr::Unless {
            condition: h,
            target,
        })?;
        self.hold()
    }

    /// Ends it.
    pub fn end_or(&mut self, jump: u32) -> Result<(), Memory>
        ensures { OnOk result (self.new.code.items ≡ slice_set self.old.code.items jump (i.Jump (length self.old.code.items))) }
    {
        let target = self.place()?;
        self.set(jump, Instr::Jump { target });
        Ok(())
    }

    /// Ends what is done only where the register is true, after an instruction that was held.
    pub fn end_and(&mut self, test: u32, h: u32) -> Result<(), Memory>
        ensures { OnOk result (self.new.code.items ≡ slice_set self.old.code.items test (i.Unless h (length self.old.code.items))) }
    {
        let target = self.place()?;
        self.set(
            test,
            Instr::Unless {
                condition: h,
                target,
            },
        );
        Ok(())
    }

    /// Ends a side whose test is followed by the instruction at this place: its jump is held, and its place goes to `ends`.
    pub fn end_side(&mut self, test: u32, h: u32, ends: &mut Vec<u32>) -> Result<(), Memory>
        ensures code { OnOk result (self.new.code.items ≡ slice_set (self.old.code.items ++ i.Jump 0 ∷ []) test (i.Unless h (length self.old.code.items + 1))) }
        ensures ends { OnOk result (ends.new.items ≡ ends.old.items ++ length self.old.code.items ∷ []) }
    {
        let end = self.hold()?;
        let target = self.place()?;
        self.set(
            test,
            Instr::Unless {
                condition: h,
                target,
            },
        );
        ends.push(end)?;
        Ok(())
    }

    /// The jumps at these places lead to the end of what was emitted.
    pub fn end_sides(&mut self, ends: &[u32]) -> Result<(), Memory>
        ensures { OnOk result (self.new.code.items ≡ jumps_set ends.now (length self.old.code.items) self.old.code.items) }
    {
        let target = self.place()?;
        for end in ends {
            self.set(*end, Instr::Jump { target });
        }
        Ok(())
    }

    /// Ends a loop whose first jump was held at `start`, and whose test begins at `test`.
    pub fn end_loop(&mut self, start: u32, test: u32, h: u32) -> Result<(), Memory>
        ensures { OnOk result (self.new.code.items ≡ slice_set (self.old.code.items ++ i.Unless h (length self.old.code.items + 1 + 1) ∷ i.Jump (start + 1) ∷ []) start (i.Jump test)) }
    {
        let end = above(above(self.place()?)?)?;
        self.put(Instr::Unless {
            condition: h,
            target: end,
        })?;
        self.put(Instr::Jump {
            target: above(start)?,
        })?;
        self.set(start, Instr::Jump { target: test });
        Ok(())
    }

    /// Begins a counted loop: the counter is in `h`, and each turn gets a copy of it in `turn`. The place of what is held.
    pub fn begin_count(&mut self, h: u32, turn: u32, at: Spot) -> Result<u32, Memory>
        ensures place { IfOk result (λ place. place ≡ length self.old.code.items + 1) }
        ensures code { OnOk result (self.new.code.items ≡ self.old.code.items ++ i.Sub turn h h at ∷ i.Jump 0 ∷ i.Tick ∷ i.Copy turn h ∷ []) }
    {
        self.put(Instr::Sub {
            to: turn,
            left: h,
            right: h,
            at,
        })?;
        let start = self.hold()?;
        self.put(Instr::Tick)?;
        self.put(Instr::Copy { to: turn, from: h })?;
        Ok(start)
    }

    /// Ends it, where `bound` has the bound.
    pub fn end_count(
        &mut self,
        start: u32,
        h: u32,
        bound: u32,
        turn: u32,
        at: Spot,
    ) -> Result<(), Memory>
        ensures { OnOk result (self.new.code.items ≡ slice_set ((self.old.code.items ++ i.Int turn (pos 1) ∷ i.Add h h turn at ∷ i.Cmp turn 2 h bound ∷ []) ++ i.Unless turn (length self.old.code.items + 1 + 1 + 1 + 1 + 1) ∷ i.Jump (start + 1) ∷ []) start (i.Jump (length self.old.code.items + 1 + 1))) }
    {
        self.put(Instr::Int {
            to: turn,
            number: 1,
        })?;
        self.put(Instr::Add {
            to: h,
            left: h,
            right: turn,
            at,
        })?;
        let test = self.place()?;
        self.put(Instr::Cmp {
            to: turn,
            choice: 2,
            left: h,
            right: bound,
        })?;
        self.end_loop(start, test, turn)
    }
}

/// The next register or place. One that would be 2^32 is want of memory.
pub fn above(number: u32) -> Result<u32, Memory>
    ensures { IfOk result (λ next. next ≡ number + 1) }
{
    if number == u32::MAX {
        Err(Memory)
    } else {
        Ok(number + 1)
    }
}
