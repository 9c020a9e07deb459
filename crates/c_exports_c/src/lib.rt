// The static library of the calls for C: it exports each call of `c_exports` under its name, with its clauses, and adds nothing.
#![tactic(auto)]

pub mod bytes;
pub mod explain;
pub mod group;
pub mod session;
pub mod turns;
pub mod views;

ghost use Rattle.std.specs.Prelude.{◌≡◌};

#[unsafe(no_mangle)]
pub extern "C" fn geysertray_version() -> u64
    ensures { result ≡ 1000000 }
{
    c_exports::geysertray_version()
}
