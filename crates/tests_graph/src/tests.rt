//! Rows of graphs and of what is said of each, the text that they are read from, inventories, and reaches.

mod inventories;
mod reach;
mod rows;
mod text;
