// The version for C, so that a program can compare its header with the archive that it was linked with.
ghost use Rattle.std.specs.Prelude.{◌≡◌};
ghost use Rattle.version.specs.Version.{version_number};

// The version as one number: ten thousand a major, a hundred a minor version.
pub fn welgadou_version() -> u32
    ensures { result ≡ version_number }
{
    version::number()
}
