// The version of what buyers hold. Header, Rust crate and change log repeat it and are held to it by a test; the archive
// and the command line read it here.
#![tactic(auto)]

ghost use Rattle.std.specs.Prelude.{◌≡◌};
ghost use Rattle.version.specs.Version.{version_number};

pub const MAJOR: u32 = 0;

pub const MINOR: u32 = 11;

pub const PATCH: u32 = 0;

// The version as one number. It rises with the version as long as minor and patch stay below a hundred.
pub fn number() -> u32
    ensures { result ≡ version_number }
{
    MAJOR * 10000 + MINOR * 100 + PATCH
}
