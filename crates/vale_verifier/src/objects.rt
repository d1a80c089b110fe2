// The rules of the instructions on objects.
ghost use Rattle.std.specs.Prelude.{◌≡◌, Some, option_copied, option_map};
ghost use Rattle.vale_code.specs.Kinds.{kind_of};
ghost use Rattle.vale_cert.specs.Known.{fact_of};
ghost use Rattle.vale_cert.specs.Objects.{types_of, field_of, item_of, cell_by, owner_kind, reference_kind, method_of};
ghost use Rattle.vale_cert.specs.Rules.{comes_back, calls_method, is_moved, moved_to, moves, drops, makes, fields_by, opens, lent_to, borrows, is_raised, raised_to, after_taking, upcasts, leads_as_owner, leads_as_reference, leads_to_read, reads_cell, reads_own, reads_found, measures, fills, gives_back, swaps, pushes, pops, reads, object_effect};
ghost use Rattle.vale_shape.specs.Known.{Knows};

use crate::arguments::{
    gets, if_types, is_usable, leave, pass, pass_all, put_fields, reads, take, take_fields,
    take_items,
};
use crate::cells::{
    field_by, find_alive, is_readable, is_through_frozen, item_by, leads, leads_if, may_be_raised,
    owner_kind, raised, read_kind, reference_kind, seen,
};
use crate::known::{fact_of, is_free, is_there, set_fact};
use vale_base::{Kind, WIDTH_LIMIT};
use vale_cert::{Kept, RegFact};
use vale_code::{Code, Field, Instr, KindInfo, MethodInfo, Ty};
use vale_shape::{Implementations, is_owned, kind_of};

// ---- methods

fn method_of(code: &Code, interface: u32, method: u32) -> Option<&MethodInfo>
    ensures { option_copied result ≡ method_of code.now interface method }
{
    match kind_of(code, Kind(interface)) {
        Some(KindInfo::Interface { methods, .. }) => methods.as_slice().get(method as usize),
        _ => None,
    }
}

/// The result of a call comes into its register; a void one is written nowhere.
pub fn come_back(depth: u32, regs: &mut [RegFact], ty: Ty, to: u32, kept: Kept) -> Kept
    ensures { comes_back depth ty to (record { kept = kept; after = regs.old }) ≡ record { kept = result; after = regs.new } }
{
    match ty {
        Ty::Void => kept,
        _ => gets(depth, regs, to, ty, kept),
    }
}

/// A call of a method of an interface.
#[derive(Drop)]
struct MethodCall<'a> {
    /// The register for its result.
    to: u32,
    interface: u32,
    /// The method's number in the interface.
    method: u32,
    /// The receiver's register.
    object: u32,
    /// Those of the other arguments.
    args: &'a [u32],
}

/// The receiver is the first argument.
fn call_method(depth: u32, regs: &mut [RegFact], m: &MethodInfo, call: &MethodCall) -> Kept
    ensures { calls_method depth regs.old (Some m.now) call.now.to call.now.object call.now.args.now ≡ record { kept = result; after = regs.new } }
{
    if m.is_pure {
        return if_types(false);
    }
    find_alive(depth, regs, call.object);
    match m.params.as_slice() {
        [] => come_back(depth, regs, m.result, call.to, if_types(false)),
        [ty, more @ ..] => {
            let kept = pass(depth, regs, call.object, *ty, if_types(true));
            let kept = pass_all(depth, regs, more, call.args, kept);
            come_back(depth, regs, m.result, call.to, kept)
        }
    }
}

fn calls_method(code: &Code, depth: u32, regs: &mut [RegFact], call: &MethodCall) -> Kept
    ensures { calls_method depth regs.old (method_of code.now call.now.interface call.now.method) call.now.to call.now.object call.now.args.now ≡ record { kept = result; after = regs.new } }
{
    match method_of(code, call.interface, call.method) {
        None => if_types(false),
        Some(m) => call_method(depth, regs, m, call),
    }
}

// ---- owners and isolates

fn is_moved(fact: RegFact) -> bool
    ensures { result ≡ is_moved fact }
{
    match fact {
        RegFact::Empty => true,
        RegFact::Held { ty, .. } => is_owned(ty),
    }
}

fn moved_to(depth: u32, fact: RegFact) -> RegFact
    ensures { result ≡ moved_to depth fact }
{
    match fact {
        RegFact::Empty => RegFact::Empty,
        RegFact::Held { ty, .. } => RegFact::Held {
            ty,
            depth,
            live: false,
        },
    }
}

fn moves(depth: u32, regs: &mut [RegFact], to: u32, a: u32) -> Kept
    ensures { moves depth regs.old to a ≡ record { kept = result; after = regs.new } }
{
    let fact = fact_of(regs, a);
    set_fact(regs, a, RegFact::Empty);
    let kept = Kept {
        types: is_moved(fact),
        present: is_there(fact) && is_free(fact_of(regs, to)),
        depths: is_usable(depth, fact),
    };
    set_fact(regs, to, moved_to(depth, fact));
    kept
}

fn drops(depth: u32, regs: &mut [RegFact], a: u32) -> Kept
    ensures { drops depth regs.old a ≡ record { kept = result; after = regs.new } }
{
    let fact = fact_of(regs, a);
    set_fact(regs, a, RegFact::Empty);
    Kept {
        types: is_moved(fact),
        present: is_there(fact),
        depths: is_usable(depth, fact),
    }
}

// ---- objects are made, taken apart, lent, and seen as interfaces

fn makes(code: &Code, depth: u32, regs: &mut [RegFact], kind: Kind, to: u32, args: &[u32]) -> Kept
    ensures { makes depth regs.old (kind_of code.now kind) kind to args.now ≡ record { kept = result; after = regs.new } }
{
    match kind_of(code, kind) {
        Some(KindInfo::Struct { fields, .. }) => {
            let kept = take_fields(depth, regs, fields.as_slice(), args, if_types(true));
            gets(depth, regs, to, Ty::Own(kind), kept)
        }
        Some(KindInfo::Array { item }) => {
            let kept = take_items(
                depth,
                regs,
                *item,
                args,
                if_types(args.len() <= WIDTH_LIMIT),
            );
            gets(depth, regs, to, Ty::Own(kind), kept)
        }
        _ => if_types(false),
    }
}

// The fields of an operand's object.
fn fields_by(code: &Code, kind: Option<Kind>) -> Option<&[Field]>
    ensures { option_map (λ fields. types_of fields.now) result ≡ fields_by code.now kind }
{
    match kind {
        None => None,
        Some(kind) => match kind_of(code, kind) {
            Some(KindInfo::Struct { fields, .. }) => Some(fields.as_slice()),
            _ => None,
        },
    }
}

fn opens(code: &Code, depth: u32, regs: &mut [RegFact], to: &[u32], a: u32) -> Kept
    ensures { opens code.now depth regs.old to.now a ≡ record { kept = result; after = regs.new } }
{
    let fact = fact_of(regs, a);
    set_fact(regs, a, RegFact::Empty);
    let usable = is_usable(depth, fact);
    match fields_by(code, owner_kind(fact)) {
        None => leads_if(usable, fact, false),
        Some(fields) => put_fields(depth, regs, fields, to, leads_if(usable, fact, true)),
    }
}

fn lent_to(depth: u32, fact: RegFact) -> RegFact
    ensures { result ≡ lent_to depth fact }
{
    match owner_kind(fact) {
        None => RegFact::Empty,
        Some(kind) => RegFact::Held {
            ty: Ty::Ref(kind),
            depth,
            live: false,
        },
    }
}

fn borrows(depth: u32, regs: &mut [RegFact], to: u32, a: u32) -> Kept
    ensures { borrows depth regs.old to a ≡ record { kept = result; after = regs.new } }
{
    let fact = fact_of(regs, a);
    let kept = leads_if(
        is_usable(depth, fact),
        fact,
        matches!(owner_kind(fact), Some(_)),
    );
    let present = kept.present && is_free(fact_of(regs, to));
    set_fact(regs, to, lent_to(depth, fact));
    Kept { present, ..kept }
}

fn is_raised(code: &Code, known: &Implementations, interface: Kind, fact: RegFact) -> bool
    requires { Knows known.now code.now.impls }
    ensures { result ≡ is_raised code.now.impls interface fact }
{
    match fact {
        RegFact::Empty => true,
        RegFact::Held { ty, .. } => may_be_raised(code, known, interface, ty),
    }
}

fn raised_to(depth: u32, interface: Kind, fact: RegFact) -> RegFact
    ensures { result ≡ raised_to depth interface fact }
{
    match fact {
        RegFact::Empty => RegFact::Empty,
        RegFact::Held { ty, live, .. } => RegFact::Held {
            ty: raised(interface, ty),
            depth,
            live,
        },
    }
}

fn take_out(regs: &mut [RegFact], a: u32, fact: RegFact)
    ensures { regs.new ≡ after_taking regs.old a fact }
{
    match fact {
        RegFact::Empty => {}
        RegFact::Held { ty, .. } => leave(regs, a, ty),
    }
}

/// What an `upcast` takes, gives and wants.
#[derive(Drop)]
struct Upcast {
    to: u32,
    from: u32,
    interface: Kind,
}

fn upcasts(
    code: &Code,
    known: &Implementations,
    depth: u32,
    regs: &mut [RegFact],
    upcast: &Upcast,
) -> Kept
    requires { Knows known.now code.now.impls }
    ensures { upcasts code.now.impls depth regs.old upcast.now.to upcast.now.from upcast.now.interface ≡ record { kept = result; after = regs.new } }
{
    let fact = fact_of(regs, upcast.from);
    take_out(regs, upcast.from, fact);
    let kept = Kept {
        types: is_raised(code, known, upcast.interface, fact),
        present: is_there(fact) && is_free(fact_of(regs, upcast.to)),
        depths: is_usable(depth, fact),
    };
    set_fact(regs, upcast.to, raised_to(depth, upcast.interface, fact));
    kept
}

// ---- fields and elements

fn read_cell(
    depth: u32,
    regs: &mut [RegFact],
    frozen: bool,
    cell: Option<Ty>,
    to: u32,
    kept: Kept,
) -> Kept
    ensures { reads_cell depth frozen cell to (record { kept = kept; after = regs.old }) ≡ record { kept = result; after = regs.new } }
{
    match cell {
        None => kept,
        Some(ty) => {
            let types = kept.types && (frozen || !matches!(ty, Ty::Iso(_)));
            let present = kept.present && is_free(fact_of(regs, to));
            let fact = RegFact::Held {
                ty: seen(frozen, ty),
                depth,
                live: frozen && is_owned(ty),
            };
            set_fact(regs, to, fact);
            Kept {
                types,
                present,
                depths: kept.depths,
            }
        }
    }
}

fn load_own(code: &Code, depth: u32, regs: &mut [RegFact], to: u32, a: u32, field: u32) -> Kept
    ensures { reads_own (field_of code.now field) depth regs.old to a (leads_as_owner (field_of code.now field) depth (fact_of regs.old a)) ≡ record { kept = result; after = regs.new } }
{
    let fact = fact_of(regs, a);
    let cell = field_by(code, field, owner_kind(fact));
    read_cell(
        depth,
        regs,
        false,
        cell,
        to,
        leads(is_usable(depth, fact), fact, cell),
    )
}

fn load(code: &Code, depth: u32, regs: &mut [RegFact], to: u32, a: u32, field: u32) -> Kept
    ensures { reads_found (field_of code.now field) depth regs.old to a (leads_to_read (field_of code.now field) depth (fact_of regs.old a)) ≡ record { kept = result; after = regs.new } }
{
    let fact = fact_of(regs, a);
    let cell = field_by(code, field, read_kind(depth, fact));
    let kept = leads(is_readable(depth, fact), fact, cell);
    find_alive(depth, regs, a);
    read_cell(depth, regs, is_through_frozen(depth, fact), cell, to, kept)
}

fn elem_own(code: &Code, depth: u32, regs: &mut [RegFact], to: u32, a: u32, x: u32) -> Kept
    ensures { reads_own (item_of code.now) depth regs.old to a (reads regs.old x Ty.Int (leads_as_owner (item_of code.now) depth (fact_of regs.old a))) ≡ record { kept = result; after = regs.new } }
{
    let fact = fact_of(regs, a);
    let cell = item_by(code, owner_kind(fact));
    let kept = reads(regs, x, Ty::Int, leads(is_usable(depth, fact), fact, cell));
    read_cell(depth, regs, false, cell, to, kept)
}

fn elem(code: &Code, depth: u32, regs: &mut [RegFact], to: u32, a: u32, x: u32) -> Kept
    ensures { reads_found (item_of code.now) depth regs.old to a (reads regs.old x Ty.Int (leads_to_read (item_of code.now) depth (fact_of regs.old a))) ≡ record { kept = result; after = regs.new } }
{
    let fact = fact_of(regs, a);
    let cell = item_by(code, read_kind(depth, fact));
    let kept = reads(
        regs,
        x,
        Ty::Int,
        leads(is_readable(depth, fact), fact, cell),
    );
    find_alive(depth, regs, a);
    read_cell(depth, regs, is_through_frozen(depth, fact), cell, to, kept)
}

fn measures(code: &Code, depth: u32, regs: &mut [RegFact], to: u32, a: u32) -> Kept
    ensures { measures code.now depth regs.old to a ≡ record { kept = result; after = regs.new } }
{
    let fact = fact_of(regs, a);
    let cell = item_by(code, read_kind(depth, fact));
    let kept = leads(is_readable(depth, fact), fact, cell);
    find_alive(depth, regs, a);
    gets(depth, regs, to, Ty::Int, kept)
}

/// A value goes into a cell.
fn fill(depth: u32, regs: &mut [RegFact], cell: Option<Ty>, v: u32, kept: Kept) -> Kept
    ensures { fills depth cell v (record { kept = kept; after = regs.old }) ≡ record { kept = result; after = regs.new } }
{
    match cell {
        None => kept,
        Some(ty) => take(depth, regs, v, ty, kept),
    }
}

/// What was in a cell comes into a register.
fn give_back(depth: u32, regs: &mut [RegFact], cell: Option<Ty>, to: u32, kept: Kept) -> Kept
    ensures { gives_back depth cell to (record { kept = kept; after = regs.old }) ≡ record { kept = result; after = regs.new } }
{
    match cell {
        None => kept,
        Some(ty) => gets(depth, regs, to, ty, kept),
    }
}

/// The registers of an exchange with a cell.
#[derive(Clone, Copy)]
struct Exchange {
    /// The one for what was in the cell.
    to: u32,
    /// The one that has the cell's object, its owner or a reference to it.
    object: u32,
    /// The one that has the new value.
    value: u32,
}

fn swap_in(
    depth: u32,
    regs: &mut [RegFact],
    cell: Option<Ty>,
    exchange: Exchange,
    kept: Kept,
) -> Kept
    ensures { swaps depth regs.old cell exchange.to exchange.value kept ≡ record { kept = result; after = regs.new } }
{
    let kept = fill(depth, regs, cell, exchange.value, kept);
    give_back(depth, regs, cell, exchange.to, kept)
}

fn swap_own(code: &Code, depth: u32, regs: &mut [RegFact], field: u32, exchange: Exchange) -> Kept
    ensures { swaps depth regs.old (cell_by (field_of code.now field) (owner_kind (fact_of regs.old exchange.object))) exchange.to exchange.value (leads_as_owner (field_of code.now field) depth (fact_of regs.old exchange.object)) ≡ record { kept = result; after = regs.new } }
{
    let fact = fact_of(regs, exchange.object);
    let cell = field_by(code, field, owner_kind(fact));
    swap_in(
        depth,
        regs,
        cell,
        exchange,
        leads(is_usable(depth, fact), fact, cell),
    )
}

fn swap(code: &Code, depth: u32, regs: &mut [RegFact], field: u32, exchange: Exchange) -> Kept
    ensures { swaps depth regs.old (cell_by (field_of code.now field) (reference_kind (fact_of regs.old exchange.object))) exchange.to exchange.value (leads_as_reference (field_of code.now field) depth (fact_of regs.old exchange.object)) ≡ record { kept = result; after = regs.new } }
{
    let fact = fact_of(regs, exchange.object);
    let cell = field_by(code, field, reference_kind(fact));
    swap_in(
        depth,
        regs,
        cell,
        exchange,
        leads(is_usable(depth, fact), fact, cell),
    )
}

fn swap_el_own(
    code: &Code,
    depth: u32,
    regs: &mut [RegFact],
    index: u32,
    exchange: Exchange,
) -> Kept
    ensures { swaps depth regs.old (cell_by (item_of code.now) (owner_kind (fact_of regs.old exchange.object))) exchange.to exchange.value (reads regs.old index Ty.Int (leads_as_owner (item_of code.now) depth (fact_of regs.old exchange.object))) ≡ record { kept = result; after = regs.new } }
{
    let fact = fact_of(regs, exchange.object);
    let cell = item_by(code, owner_kind(fact));
    let kept = reads(
        regs,
        index,
        Ty::Int,
        leads(is_usable(depth, fact), fact, cell),
    );
    swap_in(depth, regs, cell, exchange, kept)
}

fn swap_el(code: &Code, depth: u32, regs: &mut [RegFact], index: u32, exchange: Exchange) -> Kept
    ensures { swaps depth regs.old (cell_by (item_of code.now) (reference_kind (fact_of regs.old exchange.object))) exchange.to exchange.value (reads regs.old index Ty.Int (leads_as_reference (item_of code.now) depth (fact_of regs.old exchange.object))) ≡ record { kept = result; after = regs.new } }
{
    let fact = fact_of(regs, exchange.object);
    let cell = item_by(code, reference_kind(fact));
    let kept = reads(
        regs,
        index,
        Ty::Int,
        leads(is_usable(depth, fact), fact, cell),
    );
    swap_in(depth, regs, cell, exchange, kept)
}

fn push(code: &Code, depth: u32, regs: &mut [RegFact], a: u32, v: u32) -> Kept
    ensures { pushes depth regs.old (cell_by (item_of code.now) (reference_kind (fact_of regs.old a))) v (leads_as_reference (item_of code.now) depth (fact_of regs.old a)) ≡ record { kept = result; after = regs.new } }
{
    let fact = fact_of(regs, a);
    let cell = item_by(code, reference_kind(fact));
    fill(
        depth,
        regs,
        cell,
        v,
        leads(is_usable(depth, fact), fact, cell),
    )
}

fn pop(code: &Code, depth: u32, regs: &mut [RegFact], to: u32, a: u32) -> Kept
    ensures { pops depth regs.old (cell_by (item_of code.now) (reference_kind (fact_of regs.old a))) to (leads_as_reference (item_of code.now) depth (fact_of regs.old a)) ≡ record { kept = result; after = regs.new } }
{
    let fact = fact_of(regs, a);
    let cell = item_by(code, reference_kind(fact));
    give_back(
        depth,
        regs,
        cell,
        to,
        leads(is_usable(depth, fact), fact, cell),
    )
}

// ---- each instruction on objects

pub fn object_effect(
    code: &Code,
    known: &Implementations,
    depth: u32,
    regs: &mut [RegFact],
    instr: &Instr,
) -> Kept
    requires { Knows known.now code.now.impls }
    ensures { object_effect code.now depth regs.old instr.now ≡ record { kept = result; after = regs.new } }
{
    match instr {
        Instr::Move { to, from } => moves(depth, regs, *to, *from),
        Instr::CallM {
            to,
            interface,
            method,
            object,
            args,
            ..
        } => {
            let call = MethodCall {
                to: *to,
                interface: *interface,
                method: *method,
                object: *object,
                args: args.as_slice(),
            };
            calls_method(code, depth, regs, &call)
        }
        Instr::Make { to, kind, args } => makes(code, depth, regs, *kind, *to, args.as_slice()),
        Instr::Borrow { to, from } => borrows(depth, regs, *to, *from),
        Instr::LoadOwn { to, object, field } => load_own(code, depth, regs, *to, *object, *field),
        Instr::Load {
            to,
            object,
            field,
            ..
        } => load(code, depth, regs, *to, *object, *field),
        Instr::ElemOwn {
            to,
            object,
            index,
            ..
        } => elem_own(code, depth, regs, *to, *object, *index),
        Instr::Elem {
            to,
            object,
            index,
            ..
        } => elem(code, depth, regs, *to, *object, *index),
        Instr::Len { to, object, .. } => measures(code, depth, regs, *to, *object),
        Instr::SwapOwn {
            to,
            object,
            field,
            value,
        } => {
            let exchange = Exchange {
                to: *to,
                object: *object,
                value: *value,
            };
            swap_own(code, depth, regs, *field, exchange)
        }
        Instr::Swap {
            to,
            object,
            field,
            value,
            ..
        } => {
            let exchange = Exchange {
                to: *to,
                object: *object,
                value: *value,
            };
            swap(code, depth, regs, *field, exchange)
        }
        Instr::SwapElOwn {
            to,
            object,
            index,
            value,
            ..
        } => {
            let exchange = Exchange {
                to: *to,
                object: *object,
                value: *value,
            };
            swap_el_own(code, depth, regs, *index, exchange)
        }
        Instr::SwapEl {
            to,
            object,
            index,
            value,
            ..
        } => {
            let exchange = Exchange {
                to: *to,
                object: *object,
                value: *value,
            };
            swap_el(code, depth, regs, *index, exchange)
        }
        Instr::Push { object, value, .. } => push(code, depth, regs, *object, *value),
        Instr::Pop { to, object, .. } => pop(code, depth, regs, *to, *object),
        Instr::Open { to, from } => opens(code, depth, regs, to.as_slice(), *from),
        Instr::Destroy { from, .. } => drops(depth, regs, *from),
        Instr::Upcast { to, from, kind } => {
            let upcast = Upcast {
                to: *to,
                from: *from,
                interface: *kind,
            };
            upcasts(code, known, depth, regs, &upcast)
        }
        _ => if_types(false),
    }
}
