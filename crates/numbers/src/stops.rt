// The numbers of the stops.
ghost use Rattle.std.specs.Prelude.{◌≡◌};
ghost use Rattle.machine.specs.Stops.{stop_number};

use machine::Stop;

// The number that Run answers for its stop.
pub fn stop_number(stop: Stop) -> u16
    ensures { result ≡ stop_number stop }
{
    match stop {
        Stop::Spent => 0,
        Stop::Ended(ending) => ending as u16,
        Stop::Full(store) => store as u16,
    }
}
