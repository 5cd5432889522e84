// The options of a run.
ghost use Rattle.std.specs.Prelude.{◌≡◌};
ghost use Rattle.refresh.specs.Options.{lawful};
ghost use Rattle.refresh.specs.Runs.{bad_options};

use tables::is_name;

#[derive(Clone, Copy, Debug, PartialEq, Eq)]
pub struct RefreshOptions<'a> {
    // the name of the function that registers a component
    pub refresh_reg: &'a [u8],
    // the name of the function that makes a signature handle
    pub refresh_sig: &'a [u8],
    pub emit_full_signatures: bool,
}

// Whether both names keep the name rule and full signatures are on.
fn is_lawful(options: &RefreshOptions) -> bool
    ensures { result ≡ lawful options.now }
{
    is_name(options.refresh_reg) && is_name(options.refresh_sig) && options.emit_full_signatures
}

// Whether options are given that are not lawful.
pub(crate) fn is_refused(options: &Option<RefreshOptions>) -> bool
    ensures { result ≡ bad_options options.now }
{
    options.as_ref().is_some_and(|options| !is_lawful(options))
}
