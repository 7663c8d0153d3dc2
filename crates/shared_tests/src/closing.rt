//! The end of a system in a test.
ghost use Rattle.std.specs.Prelude.{◌≡◌, length};
ghost use Rattle.com_shared.specs.Parties.{parties};
ghost use Rattle.com_shared.specs.Passes.{MayClose, MayAllClose};

use crate::replay::{Played, read_back};
use com_net::Net;
use com_shared::{Pass, Shared};
use std::alloc::{AllocError, Global};

/// Closes a system, and reads what comes of it.
pub fn close(
    alloc: Global,
    net: &Net,
    shared: Shared,
    passes: Vec<Pass>,
) -> Result<Played, AllocError>
    requires many { length passes.items ≡ parties shared.net }
    requires all { MayAllClose shared passes.items }
{
    match shared.close(passes) {
        Ok((state, history)) => read_back(alloc, net, &state, history.as_slice()),
        Err(_) => Err(AllocError),
    }
}

/// Closes a system of three parties.
pub fn close_three(
    alloc: Global,
    net: &Net,
    shared: Shared,
    first: Pass,
    second: Pass,
    third: Pass,
) -> Result<Played, AllocError>
    requires three { parties shared.net ≡ 3 }
    requires first { MayClose shared 0 first }
    requires second { MayClose shared 1 second }
    requires third { MayClose shared 2 third }
{
    let passes = Vec::from_array(alloc, [first, second, third])?;
    close(alloc, net, shared, passes)
}
