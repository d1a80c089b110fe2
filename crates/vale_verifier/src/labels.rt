// Labels, the places of which rise.
ghost use Rattle.std.specs.Prelude.{◌≡◌, ◌+◌, ◌<◌, ℕ, length, option_copied};
ghost use Rattle.vale_cert.specs.Known.{label_at, rise};
ghost use Rattle.vale_verifier.specs.Walking.{Ahead};

use vale_cert::Label;

/// Whether the places of the labels rise.
pub fn rise(labels: &[Label]) -> bool
    ensures { result ≡ rise labels.now }
{
    let [label, rest @ ..] = labels else {
        return true;
    };
    let mut last = label.at;
    for label in rest {
        if label.at <= last {
            return false;
        }
        last = label.at;
    }
    true
}

/// The label at a place, before which there is none.
pub fn front_at(labels: &[Label], p: usize) -> Option<&Label>
    requires { Ahead p labels.now }
    ensures { option_copied result ≡ label_at labels.now p }
{
    match labels {
        [] => None,
        [label, ..] => {
            if label.at as usize == p {
                Some(label)
            } else {
                None
            }
        }
    }
}

/// The labels after a place, before which there is none.
pub fn behind(labels: &[Label], p: usize) -> &[Label]
    requires { Ahead p labels.now }
    ensures ahead { Ahead (p + 1) result.now }
    ensures same { (q : ℕ) → p < q → label_at result.now q ≡ label_at labels.now q }
{
    match labels {
        [] => labels,
        [label, more @ ..] => { if label.at as usize == p { more } else { labels } }
    }
}

/// That half of the labels in which the one at a place is, where there is one.
fn half(labels: &[Label], p: u32) -> &[Label]
    requires some { 1 < length labels.now }
    requires ahead { Ahead 0 labels.now }
    ensures ahead { Ahead 0 result.now }
    ensures same { label_at result.now p ≡ label_at labels.now p }
    ensures shorter { length result.now < length labels.now }
{
    let middle = labels.len() / 2;
    if p < labels[middle].at {
        &labels[..middle]
    } else {
        &labels[middle..]
    }
}

/// The label at a place, by halves.
pub fn find(labels: &[Label], p: u32) -> Option<&Label>
    requires { Ahead 0 labels.now }
    ensures { option_copied result ≡ label_at labels.now p }
{
    let mut among = labels;
    while among.len() > 1 {
        among = half(among, p);
    }
    match among {
        [] => None,
        [label, ..] => { if label.at == p { Some(label) } else { None } }
    }
}
