// The calls that C, and whatever calls C, makes on a session in its own memory and on the bytes of sets: include/geysertray.h declares them.
// Tables and heads are pointers to arrays of their length; anchors, sets and outputs are a pointer and a length. `c_exports_c` exports them.
#![tactic(auto)]

pub mod bytes;
pub mod explain;
pub mod group;
pub mod session;
pub mod turns;
pub mod views;

ghost use Rattle.std.specs.Prelude.{◌≡◌};

// The version of the library: 1000000 times the major number, 1000 times the minor one, and the patch number.
pub fn geysertray_version() -> u64
    ensures { result ≡ 1000000 }
{
    1000000
}
