// The names of built-ins.
ghost use Rattle.std.specs.Prelude.{◌≡◌};
ghost use Rattle.vale_rules_spec.specs.Declarations.{is_built_in};

use vale_base::Text;
use vale_names::is_called;
use vale_syntax::NameAt;

/// Whether the name is that of a built-in.
pub fn is_built_in(names: &[Text], name: NameAt) -> bool
    ensures { result ≡ is_built_in names.now name }
{
    is_called(names, b"print", name)
        || is_called(names, b"println", name)
        || is_called(names, b"drop", name)
        || is_called(names, b"len", name)
        || is_called(names, b"push", name)
        || is_called(names, b"pop", name)
        || is_called(names, b"text", name)
        || is_called(names, b"slice", name)
        || is_called(names, b"byte", name)
        || is_called(names, b"is_number", name)
        || is_called(names, b"number", name)
}
