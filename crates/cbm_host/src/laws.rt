//! What a request is on the wires, as the contract of a function with nothing to do.

ghost use Rattle.cbm_host.specs.Requests.{PlaysRequests};

/// Every request is a session of its own, whatever the drive says in it: its pieces fit each other, from rest to rest,
/// and the host performs its part of them, each change when it is due, if the drive does its own. It is over at most
/// 250,000,000 microseconds after its first change.
pub fn plays_requests()
    ensures { PlaysRequests }
{}
