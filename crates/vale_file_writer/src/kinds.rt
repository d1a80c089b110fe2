//! Types, kinds and implementations, into a file.

ghost use Rattle.std.specs.Prelude.{◌≡◌, ◌++◌, OnOk};
ghost use Rattle.std.specs.List.{flat_map};
ghost use Rattle.vale_file_spec.specs.Types.{truth, ty};
ghost use Rattle.vale_file_spec.specs.File.{tys, field, fields, method, methods, destructor, struct_parts, interface_parts, kind_info, kind_infos, impl_info, impl_infos};

use crate::instrs::write_words;
use vale_base::Memory;
use vale_code::{Field, Impl, KindInfo, MethodInfo, Sequence, Ty};
use vale_codec::{write_number, write_word};

fn write_truth(out: &mut Vec<u8>, holds: bool) -> Result<(), Memory>
    ensures { OnOk result (out.new.items ≡ out.old.items ++ truth.write holds) }
{
    write_number(out, if holds { 1 } else { 0 })
}

#[tactic(auto, unfolding(vale_file_spec::specs::Types::ty))]
pub fn write_ty(out: &mut Vec<u8>, one: Ty) -> Result<(), Memory>
    ensures { OnOk result (out.new.items ≡ out.old.items ++ ty.write one) }
{
    match one {
        Ty::Void => write_number(out, 0),
        Ty::Int => write_number(out, 1),
        Ty::Truth => write_number(out, 2),
        Ty::Text => write_number(out, 3),
        Ty::Own(kind) => {
            write_number(out, 4)?;
            write_word(out, kind.0)
        }
        Ty::Ref(kind) => {
            write_number(out, 5)?;
            write_word(out, kind.0)
        }
        Ty::Frozen(kind) => {
            write_number(out, 6)?;
            write_word(out, kind.0)
        }
        Ty::Iso(kind) => {
            write_number(out, 7)?;
            write_word(out, kind.0)
        }
    }
}

fn write_each_ty(out: &mut Vec<u8>, parts: &[Ty]) -> Result<(), Memory>
    ensures { OnOk result (out.new.items ≡ out.old.items ++ flat_map ty.write parts.now) }
{
    for part in parts {
        write_ty(out, *part)?;
    }
    Ok(())
}

#[tactic(auto, unfolding(vale_file_spec::specs::File::tys))]
pub fn write_tys(out: &mut Vec<u8>, parts: &Sequence<Ty>) -> Result<(), Memory>
    ensures { OnOk result (out.new.items ≡ out.old.items ++ tys.write parts.now) }
{
    let parts = parts.as_slice();
    write_number(out, parts.len() as u64)?;
    write_each_ty(out, parts)
}

#[tactic(auto, unfolding(vale_file_spec::specs::File::field))]
fn write_field(out: &mut Vec<u8>, one: Field) -> Result<(), Memory>
    ensures { OnOk result (out.new.items ≡ out.old.items ++ field.write one) }
{
    write_ty(out, one.ty)?;
    write_truth(out, one.mutable)
}

fn write_each_field(out: &mut Vec<u8>, parts: &[Field]) -> Result<(), Memory>
    ensures { OnOk result (out.new.items ≡ out.old.items ++ flat_map field.write parts.now) }
{
    for part in parts {
        write_field(out, *part)?;
    }
    Ok(())
}

#[tactic(auto, unfolding(vale_file_spec::specs::File::fields))]
fn write_fields(out: &mut Vec<u8>, parts: &Sequence<Field>) -> Result<(), Memory>
    ensures { OnOk result (out.new.items ≡ out.old.items ++ fields.write parts.now) }
{
    let parts = parts.as_slice();
    write_number(out, parts.len() as u64)?;
    write_each_field(out, parts)
}

#[tactic(auto, unfolding(vale_file_spec::specs::File::method))]
fn write_method(out: &mut Vec<u8>, one: &MethodInfo) -> Result<(), Memory>
    ensures { OnOk result (out.new.items ≡ out.old.items ++ method.write one.now) }
{
    write_word(out, one.name)?;
    write_truth(out, one.is_pure)?;
    write_tys(out, &one.params)?;
    write_ty(out, one.result)
}

fn write_each_method(out: &mut Vec<u8>, parts: &[MethodInfo]) -> Result<(), Memory>
    ensures { OnOk result (out.new.items ≡ out.old.items ++ flat_map method.write parts.now) }
{
    for part in parts {
        write_method(out, part)?;
    }
    Ok(())
}

#[tactic(auto, unfolding(vale_file_spec::specs::File::methods))]
fn write_methods(out: &mut Vec<u8>, parts: &Sequence<MethodInfo>) -> Result<(), Memory>
    ensures { OnOk result (out.new.items ≡ out.old.items ++ methods.write parts.now) }
{
    let parts = parts.as_slice();
    write_number(out, parts.len() as u64)?;
    write_each_method(out, parts)
}

#[tactic(auto, unfolding(vale_file_spec::specs::File::destructor))]
fn write_destructor(out: &mut Vec<u8>, one: Option<u32>) -> Result<(), Memory>
    ensures { OnOk result (out.new.items ≡ out.old.items ++ destructor.write one) }
{
    match one {
        None => write_number(out, 0),
        Some(number) => write_number(out, u64::from(number) + 1),
    }
}

#[tactic(auto, unfolding(vale_file_spec::specs::File::struct_parts, vale_file_spec::specs::File::interface_parts, vale_file_spec::specs::File::kind_info))]
fn write_kind(out: &mut Vec<u8>, one: &KindInfo) -> Result<(), Memory>
    ensures { OnOk result (out.new.items ≡ out.old.items ++ kind_info.write one.now) }
{
    match one {
        KindInfo::Struct {
            name,
            destructor,
            fields,
        } => {
            write_number(out, 0)?;
            write_word(out, *name)?;
            write_destructor(out, *destructor)?;
            write_fields(out, fields)
        }
        KindInfo::Interface { name, methods } => {
            write_number(out, 1)?;
            write_word(out, *name)?;
            write_methods(out, methods)
        }
        KindInfo::Array { item } => {
            write_number(out, 2)?;
            write_ty(out, *item)
        }
    }
}

fn write_each_kind(out: &mut Vec<u8>, parts: &[KindInfo]) -> Result<(), Memory>
    ensures { OnOk result (out.new.items ≡ out.old.items ++ flat_map kind_info.write parts.now) }
{
    for part in parts {
        write_kind(out, part)?;
    }
    Ok(())
}

#[tactic(auto, unfolding(vale_file_spec::specs::File::kind_infos))]
pub fn write_kinds(out: &mut Vec<u8>, parts: &Sequence<KindInfo>) -> Result<(), Memory>
    ensures { OnOk result (out.new.items ≡ out.old.items ++ kind_infos.write parts.now) }
{
    let parts = parts.as_slice();
    write_number(out, parts.len() as u64)?;
    write_each_kind(out, parts)
}

#[tactic(auto, unfolding(vale_file_spec::specs::File::impl_info))]
fn write_impl(out: &mut Vec<u8>, one: &Impl) -> Result<(), Memory>
    ensures { OnOk result (out.new.items ≡ out.old.items ++ impl_info.write one.now) }
{
    write_word(out, one.interface.0)?;
    write_word(out, one.of.0)?;
    write_words(out, &one.funcs)
}

fn write_each_impl(out: &mut Vec<u8>, parts: &[Impl]) -> Result<(), Memory>
    ensures { OnOk result (out.new.items ≡ out.old.items ++ flat_map impl_info.write parts.now) }
{
    for part in parts {
        write_impl(out, part)?;
    }
    Ok(())
}

#[tactic(auto, unfolding(vale_file_spec::specs::File::impl_infos))]
pub fn write_impls(out: &mut Vec<u8>, parts: &Sequence<Impl>) -> Result<(), Memory>
    ensures { OnOk result (out.new.items ≡ out.old.items ++ impl_infos.write parts.now) }
{
    let parts = parts.as_slice();
    write_number(out, parts.len() as u64)?;
    write_each_impl(out, parts)
}
