// What mending answers where it is done: the mended file's length and the number of entries. Otherwise it is "a refusal with number, map and place".
#[derive(Clone, Copy, PartialEq, Eq, Debug)]
pub struct Mending {
    pub length: u16,
    pub entries: u16,
}
