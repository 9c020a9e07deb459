// Creation of a session whose binding anchors are lent as node and slot pairs.
#![tactic(auto)]

ghost use Rattle.std.specs.Prelude.{◌≡◌, ◌+◌, min, take};
ghost use Rattle.spec_patch.specs.Sizes.{anchors};
ghost use Rattle.session_creation.specs.Creation.{creation_with};
ghost use Rattle.session_from_pairs.specs.CreatesFrom.{CreatesFrom};

use active_projection_target_catalog::catalog::BindingPair;
use pairs::{BindingAnchors, copy_binding_pairs};
use session_creation::{ShellSessionCreation, create_shell_session};
use session_lifecycle::state::ShellLifecycleLimits;

pub mod pairs;

// Creates a session that keeps these binding anchors as they are.
fn create_with_anchors(
    id: u64,
    limits: ShellLifecycleLimits,
    nodes: &[u64],
    anchors: BindingAnchors,
    collections: &[u64],
) -> ShellSessionCreation
    ensures { result ≡ creation_with id limits nodes.now anchors.pairs anchors.given collections.now }
{
    let pairs = anchors.pairs;
    let given = anchors.given;
    create_shell_session(id, limits, nodes, pairs, given, collections)
}

// Creates a session with these anchors. A list over its capacity gives 13 and yields no session.
pub fn create_session(
    id: u64,
    limits: ShellLifecycleLimits,
    nodes: &[u64],
    pairs: &[BindingPair],
    collections: &[u64],
) -> ShellSessionCreation
    ensures { CreatesFrom id limits nodes.now pairs.now collections.now result }
{
    let anchors = copy_binding_pairs(pairs);
    create_with_anchors(id, limits, nodes, anchors, collections)
}

// How many pairs of an array are lent: one too many where more are given.
fn lent_count(given: usize) -> usize
    ensures { result ≡ min given (anchors + 1) }
{
    if BindingAnchors::LENT < given {
        return BindingAnchors::LENT;
    }
    given
}

// The same for callers that keep their pairs in an array with one place more than a session has: the first given ones are lent.
pub fn create_from(
    id: u64,
    limits: ShellLifecycleLimits,
    nodes: &[u64],
    pairs: [BindingPair; BindingAnchors::LENT],
    given: usize,
    collections: &[u64],
) -> ShellSessionCreation
    ensures { CreatesFrom id limits nodes.now (take given pairs) collections.now result }
{
    let count = lent_count(given);
    create_session(id, limits, nodes, &pairs[..count], collections)
}
