//! The table of virtual links and the judgements, by the worked examples of the rules.

// further: mod cuts;
mod lanes;
// further: mod many;
// further: mod reference;
mod rounds;
// further: mod rules;
// further: mod tables;

/// The table of two links: the judgements of the second are off.
pub const TWO_LINKS: &str =
    "constant = 50331648\n[[link]]\nid = 5\nname = \"brake\"\nbag_ms = 1\njitter_us = 0\n\
     smax = 200\nintegrity = true\nredundancy = true\nskew_us = 1000\n\
     [[link]]\nid = 6\nname = \"flaps\"\nbag_ms = 2\njitter_us = 0\n\
     smax = 200\nintegrity = false\nredundancy = false\nskew_us = 0\n";
