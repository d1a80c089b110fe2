//! Types, kinds and implementations.

ghost use Rattle.std.specs.List.{AllByRecursion};
ghost use Rattle.vale_file_fits.specs.Fits.{MethodIsFit, KindIsFit, ImplIsFit};
ghost use Rattle.vale_file_spec.specs.File.{field};
ghost use Rattle.vale_file_spec.specs.Types.{ty};

use crate::numbers::{kind_number_fits, words_fit};
use vale_code::{Field, Impl, KindInfo, MethodInfo, Ty};

#[tactic(auto, using(crate::proofs::PartFits::void_fits, crate::proofs::PartFits::int_fits, crate::proofs::PartFits::truth_ty_fits, crate::proofs::PartFits::text_fits, crate::proofs::PartFits::own_fits, crate::proofs::PartFits::ref_fits, crate::proofs::PartFits::frozen_fits, crate::proofs::PartFits::iso_fits))]
pub fn ty_fits(one: Ty)
    ensures { ty.Fits one }
{
    match one {
        Ty::Void => {}
        Ty::Int => {}
        Ty::Truth => {}
        Ty::Text => {}
        Ty::Own(kind) => kind_number_fits(kind),
        Ty::Ref(kind) => kind_number_fits(kind),
        Ty::Frozen(kind) => kind_number_fits(kind),
        Ty::Iso(kind) => kind_number_fits(kind),
    }
}

#[tactic(auto, using(crate::proofs::ListFits::all_more))]
pub fn each_ty_fits(parts: &[Ty])
    ensures { AllByRecursion ty.Fits parts.now }
{
    for part in parts {
        ty_fits(*part);
    }
}

#[tactic(auto, using(crate::proofs::PartFits::field_fits))]
fn field_fits(one: Field)
    ensures { field.Fits one }
{
    ty_fits(one.ty);
}

#[tactic(auto, using(crate::proofs::ListFits::all_more))]
fn each_field_fits(parts: &[Field])
    ensures { AllByRecursion field.Fits parts.now }
{
    for part in parts {
        field_fits(*part);
    }
}

#[tactic(auto, using(crate::proofs::PartFits::method_fits))]
fn method_fits(one: &MethodInfo)
    ensures { MethodIsFit one.now }
{
    let _name = one.name;
    each_ty_fits(one.params.as_slice());
    ty_fits(one.result);
}

#[tactic(auto, using(crate::proofs::ListFits::all_more))]
fn each_method_fits(parts: &[MethodInfo])
    ensures { AllByRecursion MethodIsFit parts.now }
{
    for part in parts {
        method_fits(part);
    }
}

#[tactic(auto, using(crate::proofs::PartFits::struct_fits, crate::proofs::PartFits::interface_fits, crate::proofs::PartFits::array_fits))]
fn kind_fits(one: &KindInfo)
    ensures { KindIsFit one.now }
{
    match one {
        KindInfo::Struct { name, fields, .. } => {
            let _name = *name;
            each_field_fits(fields.as_slice());
        }
        KindInfo::Interface { name, methods } => {
            let _name = *name;
            each_method_fits(methods.as_slice());
        }
        KindInfo::Array { item } => ty_fits(*item),
    }
}

#[tactic(auto, using(crate::proofs::ListFits::all_more))]
pub fn each_kind_fits(parts: &[KindInfo])
    ensures { AllByRecursion KindIsFit parts.now }
{
    for part in parts {
        kind_fits(part);
    }
}

#[tactic(auto, using(crate::proofs::PartFits::impl_fits))]
fn impl_fits(one: &Impl)
    ensures { ImplIsFit one.now }
{
    kind_number_fits(one.interface);
    kind_number_fits(one.of);
    words_fit(&one.funcs);
}

#[tactic(auto, using(crate::proofs::ListFits::all_more))]
pub fn each_impl_fits(parts: &[Impl])
    ensures { AllByRecursion ImplIsFit parts.now }
{
    for part in parts {
        impl_fits(part);
    }
}
