// Labels that grow at their end, with the code that isn't emitted again but counted.
ghost use Rattle.std.specs.Prelude.{◌≡◌, ◌+◌, ◌∷◌, [], Some, None, false, OnOk};
ghost use Rattle.vale_lower_facts.specs.Marks.{mark};
ghost use Rattle.vale_label_steps.specs.Progress.{progress, with_marks};
ghost use Rattle.vale_label_steps.specs.Standing.{stand};

use crate::known::facts_at;
use crate::slots::Standing;
use std::alloc::Global;
use vale_base::Memory;
use vale_cert::Label;
use vale_code::Ty as CodeTy;
use vale_lower_expr::above;

/// The labels of a function so far.
#[derive(Drop)]
pub struct Labels {
    pub labels: Vec<Label>,
    /// The place of the next instruction.
    pub place: u32,
    /// Whether that place is due a label.
    pub due: bool,
    /// The number of the function's registers.
    pub registers: u32,
    /// The register that the function's end returns, and the type of its result, where it gives a value.
    pub last: u32,
    pub result_type: Option<CodeTy>,
}

impl Labels {
    /// None yet, of a function with so many registers and this last one. It takes no memory.
    #[tactic(auto, using(crate::proofs::ProgressLaws::labelled))]
    pub fn new(alloc: Global, registers: u32, last: u32, result_type: Option<CodeTy>) -> Self
        ensures progress { progress result ≡ record { last = record { register = last; ty = result_type }; registers = registers; labels = []; place = 0 } }
        ensures due { result.due ≡ false }
    {
        Labels {
            labels: Vec::new(alloc),
            place: 0,
            due: false,
            registers,
            last,
            result_type,
        }
    }

    /// One more instruction, where this is known. It has a label where one is due.
    #[tactic(auto, using(crate::proofs::ProgressLaws::labelled))]
    pub fn put(&mut self, alloc: Global, here: &Standing) -> Result<(), Memory>
        ensures marks { OnOk result (progress self.new ≡ with_marks (mark self.old.due (stand here.now) ∷ []) (progress self.old)) }
        ensures due { OnOk result (self.new.due ≡ false) }
    {
        if self.due {
            self.put_labelled(alloc, here)
        } else {
            self.put_plain()
        }
    }

    // One more instruction with a label.
    #[tactic(auto, using(crate::proofs::ProgressLaws::labelled))]
    fn put_labelled(&mut self, alloc: Global, here: &Standing) -> Result<(), Memory>
        ensures marks { OnOk result (progress self.new ≡ with_marks (Some (stand here.now) ∷ []) (progress self.old)) }
        ensures due { OnOk result (self.new.due ≡ false) }
    {
        let regs = facts_at(alloc, here, self.registers, self.last, self.result_type)?;
        self.labels.push(Label {
            at: self.place,
            depth: 0,
            regs,
        })?;
        self.due = false;
        self.place = above(self.place)?;
        Ok(())
    }

    /// One more instruction with no label.
    #[tactic(auto, using(crate::proofs::ProgressLaws::labelled))]
    pub fn put_plain(&mut self) -> Result<(), Memory>
        ensures marks { OnOk result (progress self.new ≡ with_marks (None ∷ []) (progress self.old)) }
        ensures due { OnOk result (self.new.due ≡ false) }
    {
        self.due = false;
        self.place = above(self.place)?;
        Ok(())
    }

    /// Says whether the next place is due a label.
    #[tactic(auto, using(crate::proofs::ProgressLaws::labelled))]
    pub fn set_due(&mut self, due: bool)
        ensures marks { progress self.new ≡ progress self.old }
        ensures due { self.new.due ≡ due }
    {
        self.due = due;
    }
}
