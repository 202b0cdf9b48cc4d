//! Tables of changes with their events, and scrambled changes, against plain clustering; tables of
//! groups that are grown from seeds, and scrambled ones.

mod classes;
mod draws;
mod groups;
mod house;
mod rows;
mod scrambled;
