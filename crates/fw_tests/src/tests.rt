//! What no clause and no row says: faults of lines as printed, readers and writers that fail, growths that are refused,
//! bytes fed to a cutter, rows over links and over plain lists, and lists of random events. What is large goes by a
//! call of `drop`: at the end of a scope each way out would prove the drop of all its parts anew.

mod after_loss;
mod call_names;
mod carried;
mod cutting;
mod drawn;
mod drive;
mod expanded;
mod frames;
mod growths;
mod json;
mod lines;
mod machine;
mod over_links;
mod over_lists;
mod pieces;
mod reference;
mod rows;
mod texts;
mod two_servers;
mod want;
