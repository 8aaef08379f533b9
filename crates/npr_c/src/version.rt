//! The version of the library.

ghost use Rattle.std.specs.Prelude.{◌≡◌, ◌+◌, ◌*◌};

const MAJOR: u32 = 0;

const MINOR: u32 = 17;

const PATCH: u32 = 0;

/// The three numbers of the version in one: 65,536 for each of the first, 256 for each of the second, and
/// the third. It takes no memory.
#[unsafe(no_mangle)]
pub extern "C" fn npr_version() -> u32
    ensures { result ≡ 65536 * MAJOR + 256 * MINOR + PATCH }
{
    65536 * MAJOR + 256 * MINOR + PATCH
}
