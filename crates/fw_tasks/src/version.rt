//! The program's version.

/// The version, and the logic in which it is proved, as `rt version` prints it. Several toolchains have that logic.
pub const VERSION: &str = "1.1.0 (logic dac8208d650f15bf)";
