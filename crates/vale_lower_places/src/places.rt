// What steps start from, and fields and elements.
ghost use Rattle.std.specs.Prelude.{◌≡◌, OnOk};
ghost use Rattle.vale_lowering.specs.Instructions.{stuck};
ghost use Rattle.vale_lowering_objects.specs.Lowered.{origin_of, is_there, load_field, load_element, swap_field, swap_element};
ghost use Rattle.vale_lower_flow.specs.Entries.{entry_of};
ghost use Rattle.vale_lower_flow.specs.Flow.{going, put};
ghost use Rattle.vale_lower_places.specs.Origins.{view_origin};

use vale_base::{Memory, Spot};
use vale_code::Instr;
use vale_lower_flow::{Flow, Local};

/// What a step starts from: an owner in a register, or a reference.
#[derive(Clone, Copy)]
pub enum Origin {
    AtHand(u32),
    Reference(u32),
}

/// What a step from the local itself starts from.
pub fn origin_of(local: Local) -> Origin
    ensures { view_origin result ≡ origin_of (entry_of local) }
{
    if local.owned {
        Origin::AtHand(local.register)
    } else {
        Origin::Reference(local.register)
    }
}

/// Whether the local holds a value.
pub fn is_there(local: Local, flow: &Flow) -> bool
    ensures { result ≡ is_there (entry_of local) (going flow.now).gone }
{
    !(local.owned && flow.is_gone(local.register))
}

/// A field goes to the register.
pub fn put_field(
    flow: &mut Flow,
    origin: Origin,
    field: Option<u32>,
    at: Spot,
    h: u32,
) -> Result<(), Memory>
    ensures { OnOk result (going flow.new ≡ put (load_field (view_origin origin) field at h) (going flow.old)) }
{
    let Some(field) = field else {
        return put_stuck(flow, h);
    };
    match origin {
        Origin::AtHand(object) => flow.put(Instr::LoadOwn {
            to: h,
            object,
            field,
        }),
        Origin::Reference(object) => flow.put(Instr::Load {
            to: h,
            object,
            field,
            at,
        }),
    }
}

/// An element, whose index stands in `index`, goes to the register.
pub fn put_element(
    flow: &mut Flow,
    origin: Origin,
    index: u32,
    at: Spot,
    h: u32,
) -> Result<(), Memory>
    ensures { OnOk result (going flow.new ≡ put (load_element (view_origin origin) index at h) (going flow.old)) }
{
    match origin {
        Origin::AtHand(object) => flow.put(Instr::ElemOwn {
            to: h,
            object,
            index,
            at,
        }),
        Origin::Reference(object) => flow.put(Instr::Elem {
            to: h,
            object,
            index,
            at,
        }),
    }
}

/// A field gets what stands in the register, and the register what it held.
pub fn swap_field(
    flow: &mut Flow,
    origin: Origin,
    field: Option<u32>,
    at: Spot,
    h: u32,
) -> Result<(), Memory>
    ensures { OnOk result (going flow.new ≡ put (swap_field (view_origin origin) field at h) (going flow.old)) }
{
    let Some(field) = field else {
        return put_stuck(flow, h);
    };
    match origin {
        Origin::AtHand(object) => flow.put(Instr::SwapOwn {
            to: h,
            object,
            field,
            value: h,
        }),
        Origin::Reference(object) => flow.put(Instr::Swap {
            to: h,
            object,
            field,
            value: h,
            at,
        }),
    }
}

/// An element, whose index stands in `index`, gets what stands in the register, and the register what it held.
pub fn swap_element(
    flow: &mut Flow,
    origin: Origin,
    index: u32,
    at: Spot,
    h: u32,
) -> Result<(), Memory>
    ensures { OnOk result (going flow.new ≡ put (swap_element (view_origin origin) index at h) (going flow.old)) }
{
    match origin {
        Origin::AtHand(object) => flow.put(Instr::SwapElOwn {
            to: h,
            object,
            index,
            value: h,
            at,
        }),
        Origin::Reference(object) => flow.put(Instr::SwapEl {
            to: h,
            object,
            index,
            value: h,
            at,
        }),
    }
}

/// For what has no code.
pub fn put_stuck(flow: &mut Flow, h: u32) -> Result<(), Memory>
    ensures { OnOk result (going flow.new ≡ put (stuck h) (going flow.old)) }
{
    flow.put(Instr::Truth { to: h, choice: 2 })
}
