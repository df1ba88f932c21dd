//! Sessions of a server before a device of a list of frames: that they come through, and refused growths.

mod batch;
mod faulty;
mod growths;
mod releases;
mod session;
mod told;
