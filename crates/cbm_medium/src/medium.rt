ghost use Rattle.std.specs.Prelude.{◌≡◌, ◌<◌, ◌≤◌, ◌⊎◌, None, true, OnOk, IfOk, IfErr, IfSome};
ghost use Rattle.cbm_medium.specs.Place.{Place, directory_head};
ghost use Rattle.cbm_medium.specs.Content.{HasFaultCode, IsWhole, is_fault_code, written, blank, format_refusal, header_fault};
ghost use Rattle.cbm_medium.specs.Seen.{Seen, with_content, formatted_as, write_refusal, IsRefused};

use crate::address::Address;
use crate::fault::Fault;

/// A disk of sectors: a map from each address to 256 bytes or the code of a fault.
///
/// A fault of a sector's header (20, 21, 27, 29) is answered by `read` and `write`, one of its data (22, 23, 24)
/// by `read` alone, and a write mends it. A protected medium refuses each write with 26, before any other fault.
/// Every other refusal is a failure of the medium's own, and is counted.
pub trait Medium {
    /// What it shows: what each sector holds, its tracks, whether it is protected, how often it failed by itself, what
    /// it refused last by itself, the id in its headers, and the bytes of its image outside the sectors.
    ghost seen: { Self → Seen };

    /// The 256 bytes at an address, or the fault that stands in their place.
    fn read(&self, at: Address) -> Result<[u8; 256], Fault>
        requires { at.track ≤ (seen self.now).tracks }
        ensures ok { IfOk result (λ bytes. (seen self.now).content at ≡ Ok bytes) }
        ensures err { IfErr result (λ fault. ((seen self.now).content at ≡ Err fault.code) × (fault.at ≡ at)) }
        ensures code { IfErr result (λ fault. is_fault_code fault.code ≡ true) };

    /// Makes an address hold these bytes, and changes no other. An `Err` changes nothing.
    fn write(&mut self, at: Address, bytes: &[u8; 256]) -> Result<(), Fault>
        requires { at.track ≤ (seen self.old).tracks }
        ensures ok { let old = seen self.old in
            OnOk result (seen self.new ≡ with_content (written old.content at bytes.now) old) }

        // Protection first, then a fault of the header.
        ensures refused { IfSome (write_refusal (seen self.old) at)
            (λ code. result ≡ Err (record { code = code; at = at })) }

        // Any other fault is the medium's own, and is counted; 26 means protection alone, and never a failure.
        ensures err { IfErr result (λ fault. (fault.at ≡ at)
            × IsRefused (write_refusal (seen self.old) at) fault (seen self.old) (seen self.new)) };

    /// Makes each sector 256 zeros, under this disk id. An `Err` changes nothing.
    fn format(&mut self, id: [u8; 2]) -> Result<(), Fault>
        ensures ok { OnOk result (seen self.new ≡ formatted_as id (with_content blank (seen self.old))) }
        ensures refused { IfSome (format_refusal (seen self.old).protected)
            (λ code. result ≡ Err (record { code = code; at = directory_head })) }
        ensures err { IfErr result (λ fault. (fault.at ≡ directory_head)
            × IsRefused (format_refusal (seen self.old).protected) fault (seen self.old) (seen self.new)) };

    /// How many tracks it has, 35 or 40; this never changes.
    fn tracks(&self) -> u8
        ensures value { result ≡ (seen self.now).tracks }
        ensures whole { (p : Place) → IsWhole ((seen self.now).content p) }
        ensures either { (result ≡ 35) ⊎ (result ≡ 40) };

    /// Whether it refuses each write with 26; this never changes.
    fn protected(&self) -> bool
        ensures { result ≡ (seen self.now).protected };

    /// How often it failed by itself.
    fn failures(&self) -> u64
        ensures { result ≡ (seen self.now).failures };

    /// What stands in place of a sector's bytes is the code of a fault that reading meets. The disk controller ends a
    /// job with one of the codes 2 to 11, which the DOS shows as 20 to 29 (Immers and Neufeld, Inside Commodore DOS):
    /// 2 to 6, 9 and 11 come from reading, 7 and 10 from writing, and 8 from a disk that is protected.
    ghost codes: { (m : Self) (p : Place) → HasFaultCode ((Self.seen m).content p) };

    /// No sector of the tracks 36 to 40 ever has a fault of its header, if the medium has these tracks.
    ghost outer_headers: { (m : Self) (p : Place) → (Self.seen m).tracks ≡ 40 → 35 < p.track
        → header_fault ((Self.seen m).content p) ≡ None };
}
