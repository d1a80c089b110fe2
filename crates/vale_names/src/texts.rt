// What names are called.
ghost use Rattle.std.specs.Prelude.{◌≡◌};
ghost use Rattle.vale_rules_spec.specs.Declarations.{is_called};

use vale_base::Text;
use vale_syntax::NameAt;

/// Whether the name has this text.
pub fn is_called(names: &[Text], text: &[u8], name: NameAt) -> bool
    ensures { result ≡ is_called names.now text.now name }
{
    match names.get(name.name.0 as usize) {
        Some(found) => *text == *found.as_slice(),
        None => false,
    }
}
