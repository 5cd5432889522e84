// The names of hooks.
ghost use Rattle.std.specs.Prelude.{◌≡◌};
ghost use Rattle.names.specs.Names.{hook_name};

// Whether a name is that of a hook: `use` followed by A to Z.
pub fn is_hook_like(name: &[u8]) -> bool
    ensures { result ≡ hook_name name.now }
{
    matches!(name, [b'u', b's', b'e', c, ..] if c.is_ascii_uppercase())
}
