//! The constants of the code are the numbers that contracts name.

ghost use Rattle.std.specs.Prelude.{◌≡◌, ◌+◌, ◌/◌};
ghost use Rattle.profile.specs.Limits.{first_identifier, greatest_identifier, least_asynchronous};
ghost use Rattle.profile.specs.Limits.{longest_cycle, longest_turnaround, longest_window, shortest_cycle};
ghost use Rattle.profile.specs.Limits.{shortest_frame, shortest_window};
ghost use Rattle.profile.specs.Limits.{first_slots, most_slots};
ghost use Rattle.profile.specs.Limits.{greatest_horizon, most_cycles, most_nodes};
ghost use Rattle.profile.specs.Limits.{arrivals_end, cycles_end, openings_end, starts_end, times_end};

use crate::{
    ARRIVALS_END, CYCLES_END, FIRST_IDENTIFIER, FIRST_SLOTS, GREATEST_HORIZON, GREATEST_IDENTIFIER,
    LEAST_ASYNCHRONOUS, LONGEST_CYCLE, LONGEST_TURNAROUND, LONGEST_WINDOW, MOST_CYCLES,
    MOST_FRAMES, MOST_NODES, MOST_SLOTS, OPENINGS_END, SHORTEST_CYCLE, SHORTEST_FRAME,
    SHORTEST_WINDOW, STARTS_END, TIMES_END,
};

/// Identifiers.
pub fn identifiers()
    ensures greatest { GREATEST_IDENTIFIER ≡ greatest_identifier }
    ensures first { FIRST_IDENTIFIER ≡ first_identifier }
    ensures asynchronous { LEAST_ASYNCHRONOUS ≡ least_asynchronous }
{}

/// Lengths, in bit times.
pub fn lengths()
    ensures shortest_frame { SHORTEST_FRAME ≡ shortest_frame }
    ensures shortest_cycle { SHORTEST_CYCLE ≡ shortest_cycle }
    ensures longest_cycle { LONGEST_CYCLE ≡ longest_cycle }
    ensures longest_turnaround { LONGEST_TURNAROUND ≡ longest_turnaround }
    ensures shortest_window { SHORTEST_WINDOW ≡ shortest_window }
    ensures longest_window { LONGEST_WINDOW ≡ longest_window }
{}

/// Numbers of slots.
pub fn slots()
    ensures first { FIRST_SLOTS ≡ first_slots }
    ensures most { MOST_SLOTS ≡ most_slots }
{}

/// Counts.
pub fn counts()
    ensures nodes { MOST_NODES ≡ most_nodes }
    ensures horizon { GREATEST_HORIZON ≡ greatest_horizon }
    ensures cycles { MOST_CYCLES ≡ most_cycles }
    ensures frames { MOST_FRAMES ≡ longest_cycle / shortest_frame + 1 }
{}

/// Ends of cycles and of times.
pub fn ends()
    ensures cycles { CYCLES_END ≡ cycles_end }
    ensures openings { OPENINGS_END ≡ openings_end }
    ensures starts { STARTS_END ≡ starts_end }
    ensures times { TIMES_END ≡ times_end }
    ensures arrivals { ARRIVALS_END ≡ arrivals_end }
{}
