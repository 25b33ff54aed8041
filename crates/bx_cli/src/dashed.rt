//! The options of xxd that are words behind one dash.

/// The option of one letter that such a word stands for, as xxd takes it; any other word as it is.
pub(crate) fn by_letter(word: &str) -> &str {
    match word {
        "-autoskip" => "-a",
        "-bits" => "-b",
        "-cols" => "-c",
        "-decimal" => "-d",
        "-group" | "-groupsize" => "-g",
        "-include" => "-i",
        "-len" => "-l",
        "-name" => "-n",
        "-offset" => "-o",
        "-plain" | "-postscript" | "-ps" => "-p",
        "-revert" => "-r",
        "-seek" | "-skip" => "-s",
        "-uppercase" => "-u",
        _ => word,
    }
}
