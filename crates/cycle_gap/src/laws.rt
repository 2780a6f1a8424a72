ghost use Rattle.std.specs.Prelude.{◌≡◌, ◌≤◌, ◌+◌, ℕ, List, [], ◌∷◌, ◌++◌, length};
ghost use Rattle.gps_fixed.specs.Moment.{Moment};
ghost use Rattle.gps_report.specs.declared.packet.Packet.{Packet};
ghost use Rattle.packet_cut.specs.Packets.{Stamped, stamped, packets_of, rest_of};
ghost use Rattle.cycle_gap.specs.End.{Joined, Woven, end_of_epoch, end_packet, open_in, others, packets_in};

/// A NAV-EOE that is put in where no packet is open is a packet of its own, and changes no packet before or behind it.
pub fn an_end_put_in_changes_no_packet()
    ensures without { (front back : List Stamped) → rest_of front ≡ [] → packets_of (front ++ back) ≡ packets_of front ++ packets_of back }
    ensures packets { (front back : List Stamped) (at : Moment) → rest_of front ≡ []
        → packets_of (front ++ (stamped at end_of_epoch ++ back)) ≡ packets_of front ++ end_packet at ∷ packets_of back }
    ensures rest { (front back : List Stamped) (at : Moment) → rest_of front ≡ [] → rest_of (front ++ (stamped at end_of_epoch ++ back)) ≡ rest_of back }
{}

/// What was handed on has the packets of what was taken, in order, and NAV-EOEs between them: none directly behind a NAV-EOE, so at most one for each
/// packet that is none. What is open is the same.
pub fn frames_put_in_stand_between_the_packets()
    ensures packets { (given taken : List ℕ) → Woven given taken → Joined (packets_in given) (packets_in taken) }
    ensures pending { (given taken : List ℕ) → Woven given taken → open_in given ≡ open_in taken }
    ensures few { (given taken : List Packet) → Joined given taken → length given ≤ length taken + others taken }
{}
