// The product as C programs link it. What C lends is safe at any value, and each answer is the paper's.
// Board, image and map come apart, as C lends them.
#![tactic(auto)]

pub mod answers;
pub mod files;
pub mod loading;
pub mod packets;
pub mod plains;
pub mod ports;
pub mod receiving;
pub mod records;
pub mod rehearsals;
pub mod sessions;
pub mod settings;
pub mod states;
pub mod visits;
