// Host data: characters are written into their cells, and the cursor moves. It is taken in rows where a row can go by one copy.
#![tactic(auto)]

pub mod canvas;
pub mod data;
pub mod joined;
mod plain;
