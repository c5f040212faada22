// How tapes are stored beside the listings that they must give: the settings of a case (given.rt), the listing that is wanted (compare.rt), and the pairs of the alarm card (card.rt).
#![tactic(auto)]

pub mod card;
pub mod compare;
pub mod given;
pub mod text;
