// The parts of lists: values that wait, operators and steps, and the locals of blocks.
ghost use Rattle.std.specs.Prelude.{◌≡◌, ◌+◌, ◌∷◌, ◌++◌, [], length, map, IfOk, OnOk};
ghost use Rattle.vale_core.specs.View.{view_ty};
ghost use Rattle.vale_model.specs.Expressions.{numbers_of};
ghost use Rattle.vale_code.specs.declared.instr.Instr.TheVariants as i;
ghost use Rattle.vale_lowering.specs.Instructions.{registers_from};
ghost use Rattle.vale_lowering_objects.specs.Lowered.{all_gives};
ghost use Rattle.vale_lowering_objects.specs.Scopes as s;
ghost use Rattle.vale_lower_flow.specs.Closing.{closed, dropped};
ghost use Rattle.vale_lower_flow.specs.Entries.{framed};
ghost use Rattle.vale_lower_flow.specs.Flow.{Going, going, put, arrived, only, mark_of, begun, ended, filled};
ghost use Rattle.vale_lower_flow.specs.Kept.{view_gives};
ghost use Rattle.vale_lower_parts.specs.Located.{Rest, Leaves, located, at_rest};

use crate::fronts::Front;
use std::alloc::Global;
use vale_base::{Memory, Name, Spot};
use vale_code::Instr;
use vale_core::Ty;
use vale_lower_flow::{Closings, Flow, Gives, Local, Mark, above};
use vale_lower_parts::{Frame, waiting};
use vale_lower_places::registers_from;
use vale_syntax::NameAt;

/// The values of a call: what each of them is, and the mark of what follows them.
#[derive(Drop)]
pub struct Values {
    pub gives: Vec<Gives>,
    pub mark: Mark,
}

/// Values that wait in registers for those after them, the next register, and what is done at the end of all.
#[derive(Drop)]
pub struct Waits {
    pub locals: Vec<Local>,
    pub gives: Vec<Gives>,
    pub next: u32,
    pub closings: Closings,
}

impl Waits {
    /// None, from the register on. It takes no memory.
    pub fn new(alloc: Global, h: u32) -> Self
        ensures locals { result.locals.items ≡ [] }
        ensures gives { result.gives.items ≡ [] }
        ensures next { result.next ≡ h }
        ensures closings { (f : Going) → closed result.closings f ≡ f }
    {
        Waits {
            locals: Vec::new(alloc),
            gives: Vec::new(alloc),
            next: h,
            closings: Closings::new(alloc),
        }
    }

    /// One more, whose code began at the place and which stands in the next register.
    #[tactic(auto, using(crate::proofs::ListLaws::waits))]
    pub fn wait(&mut self, gives: Gives, start: u32, flow: &mut Flow) -> Result<(), Memory>
        ensures next { OnOk result (self.new.next ≡ self.old.next + 1) }
        ensures gives { OnOk result (map view_gives self.new.gives.items ≡ map view_gives self.old.gives.items ++ view_gives gives ∷ []) }
        ensures locals { OnOk result ((outer : s.Scope) → framed self.new.locals.items outer ≡ s.waiting self.old.next (view_gives gives) ∷ framed self.old.locals.items outer) }
        ensures begun { OnOk result (going flow.new ≡ filled self.old.next (begun (self.old.next + 1) (going flow.old))) }
        ensures closings { OnOk result ((f : Going) → closed self.new.closings f ≡ closed self.old.closings (only (s.is_value (view_gives gives)) start self.old.next (ended (mark_of (going flow.old)) f))) }
    {
        let h = self.next;
        let next = above(h)?;
        end_part(&mut self.closings, gives.is_value(), start, h, next, flow)?;
        flow.fill(h);
        self.locals.push(waiting(h, gives))?;
        self.gives.push(gives)?;
        self.next = next;
        Ok(())
    }

    /// All wait, and what follows them begins.
    pub fn close(self, flow: &mut Flow) -> Result<Values, Memory>
        ensures gives { IfOk result (λ v. v.gives.items ≡ self.gives.items) }
        ensures mark { IfOk result (λ v. v.mark ≡ mark_of (closed self.closings (arrived (going flow.old)))) }
        ensures begun { OnOk result (going flow.new ≡ begun self.next (closed self.closings (arrived (going flow.old)))) }
    {
        let Waits {
            gives,
            next,
            closings,
            ..
        } = self;
        flow.arrive();
        closings.close(flow)?;
        let mark = flow.begin(next)?;
        Ok(Values { gives, mark })
    }
}

/// A part of a list ends, which began at the place, and what follows it begins, where `r` is the first free register.
pub fn end_part(
    closings: &mut Closings,
    ok: bool,
    start: u32,
    h: u32,
    r: u32,
    flow: &mut Flow,
) -> Result<(), Memory>
    ensures begun { OnOk result (going flow.new ≡ begun r (going flow.old)) }
    ensures closings { OnOk result ((f : Going) → closed closings.new f ≡ closed closings.old (only ok start h (ended (mark_of (going flow.old)) f))) }
{
    closings.keep(ok, start, h)?;
    let mark = flow.begin(r)?;
    closings.end(mark)
}

/// A local gets the value that stands in the next register.
pub fn declare_value(
    frame: &mut Frame,
    front: Front,
    ok: bool,
    name: Name,
    gives: Gives,
    end: Spot,
    flow: &mut Flow,
) -> Result<(), Memory>
    ensures next { OnOk result (frame.new.next ≡ frame.old.next + 1) }
    ensures locals { OnOk result ((outer : s.Scope) → framed frame.new.locals.items outer ≡ s.entry name.0 frame.old.next (view_gives gives) ∷ framed frame.old.locals.items outer) }
    ensures filled { OnOk result (going flow.new ≡ filled frame.old.next (going flow.old)) }
    ensures closings { OnOk result ((f : Going) → closed frame.new.closings f ≡ closed frame.old.closings (only ok front.start frame.old.next (ended front.mark (dropped (s.entry name.0 frame.old.next (view_gives gives)) end f)))) }
{
    frame.closings.keep(ok, front.start, frame.next)?;
    frame.closings.end(front.mark)?;
    frame.declare(name, gives, end, flow)
}

/// Locals get the fields of the value that stands in the next register.
pub fn destructure_value(
    alloc: Global,
    frame: &mut Frame,
    front: Front,
    ok: bool,
    names: &[NameAt],
    types: &[Ty],
    end: Spot,
    flow: &mut Flow,
) -> Result<(), Memory>
    ensures { OnOk result ((outer : s.Scope) (after : Leaves) (rest : Rest) → closed frame.new.closings (at_rest end after rest frame.new.next (framed frame.new.locals.items outer) (going flow.new)) ≡ closed frame.old.closings (only ok front.start frame.old.next (ended front.mark (located end after rest (numbers_of names.now) (all_gives (map view_ty types.now)) frame.old.next (framed frame.old.locals.items outer) (put (i.Open (registers_from frame.old.next (length names.now)) frame.old.next ∷ []) (going flow.old)))))) }
{
    frame.closings.keep(ok, front.start, frame.next)?;
    frame.closings.end(front.mark)?;
    flow.put(Instr::Open {
        to: registers_from(alloc, frame.next, names.len())?,
        from: frame.next,
    })?;
    frame.declare_all(names, types, end, flow)
}
