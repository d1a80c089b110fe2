// The edges between kinds: from which kinds each is led to at once.
ghost use Rattle.std.specs.Prelude.{◌≡◌, ◌<◌, ◌^◌, ℕ, Some, Bool, true, OnOk, IfOk, IfSome, length, slice_get};
ghost use Rattle.std.specs.List.{All};
ghost use Rattle.vale_marks.specs.declared.way.Way.TheVariants.{Any};
ghost use Rattle.vale_marks.specs.Ways.{type_leads, leads, IsEdge, StandsIn, FieldsStandIn, ImplStandsIn};

use crate::way::Way;
use std::alloc::Global;
use vale_base::{Kind, Memory};
use vale_code::{Code, Field, Impl, KindInfo, Ty};

/// Kind `from` leads to kind `to`.
#[derive(Clone, Copy, Drop)]
pub struct Edge {
    pub to: u32,
    pub from: u32,
}

/// The kind that a type leads to.
fn target_of(way: Way, ty: Ty) -> Option<Kind>
    ensures { IfSome result (λ kind. (is_marked : ℕ → Bool) → is_marked kind.0 ≡ true → type_leads way is_marked ty ≡ true) }
{
    match ty {
        Ty::Own(kind) => Some(kind),
        Ty::Ref(kind) | Ty::Frozen(kind) => match way {
            Way::Any => Some(kind),
            Way::Arrays => None,
        },
        _ => None,
    }
}

/// Adds the edge of a type that stands in kind `from`.
fn add_type(way: Way, code: &Code, from: u32, ty: Ty, edges: &mut Vec<Edge>) -> Result<(), Memory>
    requires stands { StandsIn way code.now from ty }
    requires edges { All (IsEdge way code.now) edges.old.items }
    ensures { OnOk result (All (IsEdge way code.now) edges.new.items) }
{
    if let Some(kind) = target_of(way, ty) {
        edges.push(Edge { to: kind.0, from })?;
    }
    Ok(())
}

fn add_fields(code: &Code, from: u32, fields: &[Field], edges: &mut Vec<Edge>) -> Result<(), Memory>
    requires stand { FieldsStandIn code.now from fields.now }
    requires edges { All (IsEdge Any code.now) edges.old.items }
    ensures { OnOk result (All (IsEdge Any code.now) edges.new.items) }
{
    for field in fields {
        add_type(Way::Any, code, from, field.ty, edges)?;
    }
    Ok(())
}

/// Adds the edges of what kind `from` has.
fn add_kind(
    way: Way,
    code: &Code,
    from: u32,
    info: &KindInfo,
    edges: &mut Vec<Edge>,
) -> Result<(), Memory>
    requires there { slice_get code.now.kinds from ≡ Some info.now }
    requires edges { All (IsEdge way code.now) edges.old.items }
    ensures { OnOk result (All (IsEdge way code.now) edges.new.items) }
{
    match info {
        KindInfo::Struct { fields, .. } => match way {
            Way::Any => add_fields(code, from, fields.as_slice(), edges),
            Way::Arrays => Ok(()),
        },
        KindInfo::Interface { .. } => Ok(()),
        KindInfo::Array { item } => add_type(way, code, from, *item, edges),
    }
}

/// Adds the edge from an interface to a struct that implements it.
fn add_impl(code: &Code, item: &Impl, edges: &mut Vec<Edge>) -> Result<(), Memory>
    requires stands { ImplStandsIn code.now item.now }
    requires edges { All (IsEdge Any code.now) edges.old.items }
    ensures { OnOk result (All (IsEdge Any code.now) edges.new.items) }
{
    if let Some(KindInfo::Interface { .. }) = code.kinds.as_slice().get(item.interface.0 as usize) {
        edges.push(Edge {
            to: item.of.0,
            from: item.interface.0,
        })?;
    }
    Ok(())
}

fn add_impls(code: &Code, edges: &mut Vec<Edge>) -> Result<(), Memory>
    requires edges { All (IsEdge Any code.now) edges.old.items }
    ensures { OnOk result (All (IsEdge Any code.now) edges.new.items) }
{
    for item in code.impls.as_slice() {
        add_impl(code, item, edges)?;
    }
    Ok(())
}

fn add_kinds(way: Way, code: &Code, edges: &mut Vec<Edge>) -> Result<(), Memory>
    requires edges { All (IsEdge way code.now) edges.old.items }
    ensures { OnOk result (All (IsEdge way code.now) edges.new.items) }
{
    for (n, info) in code.kinds.as_slice().iter().enumerate() {
        add_kind(way, code, n as u32, info, edges)?;
    }
    Ok(())
}

/// All edges that count, by the kind that they lead to.
pub fn edges_of(alloc: Global, way: Way, code: &Code) -> Result<Vec<Edge>, Memory>
    ensures { IfOk result (λ edges. All (IsEdge way code.now) edges.items) }
{
    let mut edges = Vec::new(alloc);
    add_kinds(way, code, &mut edges)?;
    match way {
        Way::Any => add_impls(code, &mut edges)?,
        Way::Arrays => {}
    }
    edges.sort_unstable_by_key(|edge| edge.to);
    Ok(edges)
}
