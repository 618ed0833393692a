ghost use Rattle.std.specs.{Prelude.{◌≡◌, ◌+◌, ◌≤◌, map, IfOk}, List.range_with_len};
ghost use Rattle.stn_net.specs.Event.{most_events};
ghost use Rattle.stn_guard.specs.Adding as adding;

use std::alloc::Allocator;
use stn_net::Event;
use stn_records::Site;
use stn_site::OwnedSteps;
use stn_time::Memory;

// The owners of the origin and of so many events, in their order; the origin's counts for nothing.
pub fn owners_of<A: Allocator>(
    alloc: A,
    site: Site,
    owned: &[OwnedSteps],
    events: u16,
) -> Result<Vec<Site, A>, Memory>
    requires { events ≤ most_events }
    ensures { IfOk result (λ owners. owners.items ≡ map (adding.owner_by site owned.now) (range_with_len 0 (events + 1))) }
{
    let mut owners = Vec::new(alloc);
    for number in 0..events + 1 {
        let event = Event::new(number).unwrap();
        owners.push(owner_by(site, owned, event))?;
    }
    Ok(owners)
}

// The owner of an event: the site of the first that has it, or else this site.
fn owner_by(site: Site, owned: &[OwnedSteps], event: Event) -> Site
    ensures { result ≡ adding.owner_by site owned.now event }
{
    for one in owned {
        if one.steps.has(event) {
            return one.site;
        }
    }
    site
}
