// What is known of registers.
ghost use Rattle.std.specs.Prelude.{◌≡◌, ◌≤◌, ◌-◌, ◌++◌, length, replicate, slice_set, option_copied, IfSome};
ghost use Rattle.vale_cert.specs.Known.{fact_of, is_there, has, is_free, agrees, agree, may_enter, is_in, params_from, stated};
ghost use Rattle.vale_cert.specs.declared.facts.RegFact.TheVariants.{Empty};
ghost use Rattle.vale_verifier.specs.Walking.{known_of};

use vale_cert::{Label, RegFact};
use vale_code::Ty;
use vale_shape::{is_owned, same_type};

pub fn fact_of(regs: &[RegFact], r: u32) -> RegFact
    ensures { result ≡ fact_of regs.now r }
{
    match regs.get(r as usize) {
        None => RegFact::Empty,
        Some(fact) => *fact,
    }
}

/// Sets what is known of a register, where it is there.
pub fn set_fact(regs: &mut [RegFact], r: u32, fact: RegFact)
    ensures { regs.new ≡ slice_set regs.old r fact }
{
    let r = r as usize;
    if r < regs.len() {
        regs[r] = fact;
    }
}

pub fn is_there(fact: RegFact) -> bool
    ensures { result ≡ is_there fact }
{
    matches!(fact, RegFact::Held { .. })
}

/// Whether it holds this type; an empty register has no other type.
pub fn has(ty: Ty, fact: RegFact) -> bool
    ensures { result ≡ has ty fact }
{
    match fact {
        RegFact::Empty => true,
        RegFact::Held { ty: u, .. } => same_type(u, ty),
    }
}

/// Whether it holds no owner and no isolate.
pub fn is_free(fact: RegFact) -> bool
    ensures { result ≡ is_free fact }
{
    match fact {
        RegFact::Empty => true,
        RegFact::Held { ty, .. } => !is_owned(ty),
    }
}

// ---- labels

fn agrees(stated: RegFact, fact: RegFact) -> bool
    ensures { result ≡ agrees stated fact }
{
    match stated {
        RegFact::Empty => is_free(fact),
        RegFact::Held { ty, depth, live } => match fact {
            RegFact::Empty => false,
            RegFact::Held {
                ty: u,
                depth: d,
                live: l,
            } => same_type(ty, u) && depth == d && (!live || l || is_owned(u)),
        },
    }
}

fn agree(stated: &[RegFact], regs: &[RegFact]) -> bool
    ensures { result ≡ agree stated.now regs.now }
{
    let mut left = regs;
    for one in stated {
        match left {
            [] => return false,
            [fact, more @ ..] => {
                if !agrees(*one, *fact) {
                    return false;
                }
                left = more;
            }
        }
    }
    left.is_empty()
}

/// Whether what is known may enter a label, where there is one.
pub fn may_enter(label: Option<&Label>, depth: u32, regs: &[RegFact]) -> bool
    ensures { result ≡ may_enter (option_copied label.entry) (record { depth = depth; regs = regs.now }) }
{
    match label {
        None => true,
        Some(label) => label.depth == depth && agree(label.regs.as_slice(), regs),
    }
}

/// A label replaces what is known; the answer is the depth, where anything is known.
pub fn state(label: Option<&Label>, depth: Option<u32>, regs: &mut [RegFact]) -> Option<u32>
    requires { IfSome (option_copied label) (λ l. length l.regs ≡ length regs.old) }
    ensures { known_of result regs.new ≡ stated (option_copied label.entry) (known_of depth regs.old) }
{
    match label {
        None => depth,
        Some(label) => {
            regs.copy_from_slice(label.regs.as_slice());
            Some(label.depth)
        }
    }
}

/// All registers are empty.
pub fn clear(regs: &mut [RegFact])
    ensures { regs.new ≡ replicate (length regs.old) Empty }
{
    for fact in regs.iter_mut() {
        *fact = RegFact::Empty;
    }
}

fn is_in(n: usize, live: &[u32]) -> bool
    ensures { result ≡ is_in n live.now }
{
    for m in live {
        if *m as usize == n {
            return true;
        }
    }
    false
}

/// The first registers hold the parameters, and the others are empty.
pub fn enter(regs: &mut [RegFact], live: &[u32], params: &[Ty])
    requires { length params.now ≤ length regs.old }
    ensures { regs.new ≡ params_from 0 live.now params.now ++ replicate (length regs.old - length params.now) Empty }
{
    clear(regs);
    for (i, ty) in params.iter().enumerate() {
        regs[i] = RegFact::Held {
            ty: *ty,
            depth: 0,
            live: is_in(i, live),
        };
    }
}
