// How the program is called.

/// What is printed where the words are wrong, or ask for help.
pub const USAGE: &[u8] =
    b"usage: reversal_gdb [--raw] [--stack=P] [--most=N] [--marks=M] PROGRAM [JOURNAL]\n\
Answers gdb over standard input and output: target remote | reversal_gdb PROGRAM JOURNAL\n\
--raw      the program is raw words, and no ELF file\n\
--stack=P  its stack has P pages of 4,096 bytes, 1 to 1,024; else 16\n\
--most=N   the run has at most N instructions, 1 to 4,294,967,294; else 4,294,967,294\n\
--marks=M  at most M states of the run are kept, 2 to 65,536, fewer where they take more than 1 GiB; else 256\n\
JOURNAL    the recorded input; none where it is left out, or is -\n\
--help     prints these lines\n";
