use vale_base::TrapKind;

/// What an instruction on objects comes to: it is done, or it traps.
#[derive(Clone, Copy)]
pub enum Effect {
    Done,
    Trap(TrapKind),
}

/// What is wanting: memory, or a page for an object.
#[derive(Clone, Copy)]
pub enum Want {
    Memory,
    Page,
}
