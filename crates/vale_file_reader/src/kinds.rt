//! Kinds and implementations, from a file.

ghost use Rattle.std.specs.Prelude.{◌≡◌};
ghost use Rattle.vale_codec.specs.Format.{Gives, many_read};
ghost use Rattle.vale_file_spec.specs.Types.{ty};
ghost use Rattle.vale_file_spec.specs.File.{tys, field, fields, method, methods, destructor, struct_parts, interface_parts, kind_info, kind_infos, impl_info, impl_infos};

use crate::instrs::read_words;
use crate::types::{read_kind_number, read_truth, read_ty};
use std::alloc::Global;
use vale_base::Fail;
use vale_code::{Field, Impl, KindInfo, MethodInfo, Sequence, Ty};
use vale_codec::{Fault, read_choice, read_word};

fn read_each_ty(alloc: Global, count: u32, bytes: &[u8]) -> Result<(Vec<Ty>, &[u8]), Fail<Fault>>
    ensures { Gives (λ x. (x.0.items, x.1.now)) result (many_read ty count bytes.now) }
{
    let mut parts = Vec::new(alloc);
    let mut rest = bytes;
    for _ in 0..count {
        let (part, after) = read_ty(rest)?;
        parts.push(part)?;
        rest = after;
    }
    Ok((parts, rest))
}

#[tactic(auto, unfolding(vale_file_spec::specs::File::tys))]
pub fn read_tys(alloc: Global, bytes: &[u8]) -> Result<(Sequence<Ty>, &[u8]), Fail<Fault>>
    ensures { Gives (λ x. (x.0, x.1.now)) result (tys.read bytes.now) }
{
    let (count, rest) = read_word(bytes)?;
    let (parts, rest) = read_each_ty(alloc, count, rest)?;
    Ok((Sequence::from_vec(parts), rest))
}

#[tactic(auto, unfolding(vale_file_spec::specs::File::field))]
fn read_field(bytes: &[u8]) -> Result<(Field, &[u8]), Fail<Fault>>
    ensures { Gives (λ x. (x.0, x.1.now)) result (field.read bytes.now) }
{
    let (ty, rest) = read_ty(bytes)?;
    let (mutable, rest) = read_truth(rest)?;
    Ok((Field { ty, mutable }, rest))
}

fn read_each_field(
    alloc: Global,
    count: u32,
    bytes: &[u8],
) -> Result<(Vec<Field>, &[u8]), Fail<Fault>>
    ensures { Gives (λ x. (x.0.items, x.1.now)) result (many_read field count bytes.now) }
{
    let mut parts = Vec::new(alloc);
    let mut rest = bytes;
    for _ in 0..count {
        let (part, after) = read_field(rest)?;
        parts.push(part)?;
        rest = after;
    }
    Ok((parts, rest))
}

#[tactic(auto, unfolding(vale_file_spec::specs::File::fields))]
pub fn read_fields(alloc: Global, bytes: &[u8]) -> Result<(Sequence<Field>, &[u8]), Fail<Fault>>
    ensures { Gives (λ x. (x.0, x.1.now)) result (fields.read bytes.now) }
{
    let (count, rest) = read_word(bytes)?;
    let (parts, rest) = read_each_field(alloc, count, rest)?;
    Ok((Sequence::from_vec(parts), rest))
}

#[tactic(auto, unfolding(vale_file_spec::specs::File::method))]
fn read_method(alloc: Global, bytes: &[u8]) -> Result<(MethodInfo, &[u8]), Fail<Fault>>
    ensures { Gives (λ x. (x.0, x.1.now)) result (method.read bytes.now) }
{
    let (name, rest) = read_word(bytes)?;
    let (is_pure, rest) = read_truth(rest)?;
    let (params, rest) = read_tys(alloc, rest)?;
    let (result, rest) = read_ty(rest)?;
    Ok((
        MethodInfo {
            name,
            is_pure,
            params,
            result,
        },
        rest,
    ))
}

fn read_each_method(
    alloc: Global,
    count: u32,
    bytes: &[u8],
) -> Result<(Vec<MethodInfo>, &[u8]), Fail<Fault>>
    ensures { Gives (λ x. (x.0.items, x.1.now)) result (many_read method count bytes.now) }
{
    let mut parts = Vec::new(alloc);
    let mut rest = bytes;
    for _ in 0..count {
        let (part, after) = read_method(alloc, rest)?;
        parts.push(part)?;
        rest = after;
    }
    Ok((parts, rest))
}

#[tactic(auto, unfolding(vale_file_spec::specs::File::methods))]
pub fn read_methods(
    alloc: Global,
    bytes: &[u8],
) -> Result<(Sequence<MethodInfo>, &[u8]), Fail<Fault>>
    ensures { Gives (λ x. (x.0, x.1.now)) result (methods.read bytes.now) }
{
    let (count, rest) = read_word(bytes)?;
    let (parts, rest) = read_each_method(alloc, count, rest)?;
    Ok((Sequence::from_vec(parts), rest))
}

#[tactic(auto, unfolding(vale_file_spec::specs::File::destructor))]
fn read_destructor(bytes: &[u8]) -> Result<(Option<u32>, &[u8]), Fail<Fault>>
    ensures { Gives (λ x. (x.0, x.1.now)) result (destructor.read bytes.now) }
{
    let (number, rest) = read_word(bytes)?;
    if number == 0 {
        return Ok((None, rest));
    }
    Ok((Some(number - 1), rest))
}

#[tactic(auto, unfolding(vale_file_spec::specs::File::struct_parts))]
fn read_struct(
    alloc: Global,
    bytes: &[u8],
) -> Result<((u32, Option<u32>, Sequence<Field>), &[u8]), Fail<Fault>>
    ensures { Gives (λ x. ((x.0.0, (x.0.1, x.0.2)), x.1.now)) result (struct_parts.read bytes.now) }
{
    let (name, rest) = read_word(bytes)?;
    let (destructor, rest) = read_destructor(rest)?;
    let (fields, rest) = read_fields(alloc, rest)?;
    Ok(((name, destructor, fields), rest))
}

#[tactic(auto, unfolding(vale_file_spec::specs::File::interface_parts))]
fn read_interface(
    alloc: Global,
    bytes: &[u8],
) -> Result<((u32, Sequence<MethodInfo>), &[u8]), Fail<Fault>>
    ensures { Gives (λ x. ((x.0.0, x.0.1), x.1.now)) result (interface_parts.read bytes.now) }
{
    let (name, rest) = read_word(bytes)?;
    let (methods, rest) = read_methods(alloc, rest)?;
    Ok(((name, methods), rest))
}

#[tactic(auto, unfolding(vale_file_spec::specs::File::kind_info))]
fn read_kind(alloc: Global, bytes: &[u8]) -> Result<(KindInfo, &[u8]), Fail<Fault>>
    ensures { Gives (λ x. (x.0, x.1.now)) result (kind_info.read bytes.now) }
{
    let (tag, rest) = read_choice(bytes, 2)?;
    match tag {
        0 => {
            let ((name, destructor, fields), rest) = read_struct(alloc, rest)?;
            Ok((
                KindInfo::Struct {
                    name,
                    destructor,
                    fields,
                },
                rest,
            ))
        }
        1 => {
            let ((name, methods), rest) = read_interface(alloc, rest)?;
            Ok((KindInfo::Interface { name, methods }, rest))
        }
        _ => {
            let (item, rest) = read_ty(rest)?;
            Ok((KindInfo::Array { item }, rest))
        }
    }
}

fn read_each_kind(
    alloc: Global,
    count: u32,
    bytes: &[u8],
) -> Result<(Vec<KindInfo>, &[u8]), Fail<Fault>>
    ensures { Gives (λ x. (x.0.items, x.1.now)) result (many_read kind_info count bytes.now) }
{
    let mut parts = Vec::new(alloc);
    let mut rest = bytes;
    for _ in 0..count {
        let (part, after) = read_kind(alloc, rest)?;
        parts.push(part)?;
        rest = after;
    }
    Ok((parts, rest))
}

#[tactic(auto, unfolding(vale_file_spec::specs::File::kind_infos))]
pub fn read_kinds(alloc: Global, bytes: &[u8]) -> Result<(Sequence<KindInfo>, &[u8]), Fail<Fault>>
    ensures { Gives (λ x. (x.0, x.1.now)) result (kind_infos.read bytes.now) }
{
    let (count, rest) = read_word(bytes)?;
    let (parts, rest) = read_each_kind(alloc, count, rest)?;
    Ok((Sequence::from_vec(parts), rest))
}

#[tactic(auto, unfolding(vale_file_spec::specs::File::impl_info))]
fn read_impl(alloc: Global, bytes: &[u8]) -> Result<(Impl, &[u8]), Fail<Fault>>
    ensures { Gives (λ x. (x.0, x.1.now)) result (impl_info.read bytes.now) }
{
    let (interface, rest) = read_kind_number(bytes)?;
    let (of, rest) = read_kind_number(rest)?;
    let (funcs, rest) = read_words(alloc, rest)?;
    Ok((
        Impl {
            interface,
            of,
            funcs,
        },
        rest,
    ))
}

fn read_each_impl(
    alloc: Global,
    count: u32,
    bytes: &[u8],
) -> Result<(Vec<Impl>, &[u8]), Fail<Fault>>
    ensures { Gives (λ x. (x.0.items, x.1.now)) result (many_read impl_info count bytes.now) }
{
    let mut parts = Vec::new(alloc);
    let mut rest = bytes;
    for _ in 0..count {
        let (part, after) = read_impl(alloc, rest)?;
        parts.push(part)?;
        rest = after;
    }
    Ok((parts, rest))
}

#[tactic(auto, unfolding(vale_file_spec::specs::File::impl_infos))]
pub fn read_impls(alloc: Global, bytes: &[u8]) -> Result<(Sequence<Impl>, &[u8]), Fail<Fault>>
    ensures { Gives (λ x. (x.0, x.1.now)) result (impl_infos.read bytes.now) }
{
    let (count, rest) = read_word(bytes)?;
    let (parts, rest) = read_each_impl(alloc, count, rest)?;
    Ok((Sequence::from_vec(parts), rest))
}
