//! The table of the worked examples, and the ledger of its two taps.

/// The table of the worked examples: one link.
pub const TABLE: &str =
    "constant = 50331648\n[[link]]\nid = 5\nname = \"brake\"\nbag_ms = 1\njitter_us = 0\n\
     smax = 200\nintegrity = true\nredundancy = true\nskew_us = 1000\n";

/// The worked ledger of two taps.
pub const TWO_TAPS: &str = "afdx-ledger 2\n\
    0 A 0 5 1 regular within first deliver - 00\n\
    100 A 1 5 2 regular within next deliver 60 01\n\
    200 B 0 5 2 regular within first copy 60 01\n\
    link 5 brake frames 3 toolong 0 excess 0 out 0 copy 1 delivered 2\n\
    filter 0 accepted 2\n\
    tap A clean 2\n\
    tap B clean 1\n\
    total frames 3 accepted 2 cut 0 runt 0 oversize 0 foreign 0 unconfigured 0 toolong 0 excess 0 \
    out 0 copy 1 delivered 2\n";
