//! Scripts on a core that another script left.

ghost use Rattle.std.specs.Prelude.{◌≡◌};

use super::fixture::{MEMORY, SMALL_NETWORK};
use super::script_tests::is_end;
use chain_core::Core;
use genesis::{Genesis, Scheme};
use scenario::{LineFault, Options, ScenarioFault, run_from};
use std::process::Abort;
use witness_pool::TestScheme;

/// A block that was kept has a name in its script.
const FIRST: (&str, &str) = (
    "block A1 genesis 1\narrive A1\nopen F\ntip\n",
    "arrive A1: kept back 0 added 1\nopen F: ok\ntip: 1 A1\n",
);

/// Later it has none until a line binds its hash, and neither has the follower. The last line is none.
const SECOND: (&str, &str) = (
    "tip\nblock A1 genesis 1\ntip\nblock A2 A1 2\narrive A2\nnext F\n",
    "tip: 1 ?\ntip: 1 A1\narrive A2: kept back 0 added 1\n",
);

/// What happened before a fault stands.
const THIRD: (&str, &str) = ("tip\nutxo\n", "tip: 2 ?\nutxo: pairs 1 coin 1200 fees 0\n");

/// Line 6 has a name that isn't bound.
const UNKNOWN_NAME_6: ScenarioFault = ScenarioFault::Line {
    number: 6,
    fault: LineFault::UnknownName,
};

/// The script ends so on the core, and prints so before. The core is given back.
fn ends_on(
    rt: &(impl Abort + AllocGlobal),
    genesis: &Genesis,
    core: Box<Core<TestScheme>>,
    case: (&str, &str),
    want: Result<(), ScenarioFault>,
) -> Box<Core<TestScheme>>
    requires { core.value.genesis ≡ genesis.now }
    ensures { result.value.genesis ≡ core.value.genesis }
{
    let (script, printed) = case;
    let mut reader = script.as_bytes();
    let mut out = Vec::new(rt.alloc());
    let core = Box::into_inner(core);
    let (core, result) = run_from(
        rt.alloc(),
        genesis,
        Options::plain(Scheme::Test),
        core,
        &mut reader,
        &mut out,
    );
    is_end(rt, result, &out, want, printed.as_bytes());
    Box::new(rt.alloc(), core).expect(rt, MEMORY)
}

#[test]
fn scripts_one_after_the_other(rt: HostRuntime) {
    let genesis = Genesis::from_toml(rt.alloc(), SMALL_NETWORK).expect(&rt, MEMORY);
    let same = genesis.try_clone().expect(&rt, MEMORY);
    let core = Core::<TestScheme>::new(rt.alloc(), same).expect(&rt, MEMORY);
    let core = Box::new(rt.alloc(), core).expect(&rt, MEMORY);
    let core = ends_on(&rt, &genesis, core, FIRST, Ok(()));
    let core = ends_on(&rt, &genesis, core, SECOND, Err(UNKNOWN_NAME_6));
    let core = ends_on(&rt, &genesis, core, THIRD, Ok(()));
    assert!(&rt; core.height() == 2);
}
