// The words of a command line.

/// The words of a command line, without the program's name. A word is any bytes.
#[derive(Drop)]
pub struct Words {
    pub list: Vec<Vec<u8>>,
}
