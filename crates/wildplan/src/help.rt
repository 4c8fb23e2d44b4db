//! What is written for `--help` and `--version`.

ghost use Rattle.std.specs.Prelude.{◌≡◌, true, false, IfSome, IfNone};
ghost use Rattle.wl_words.specs.Texts.{texts};
ghost use Rattle.wildplan.specs.Lines.{asks_about, asks_about_program};

/// The program's version.
const VERSION: &str = "wildplan 0.1.0\n";

/// How the program is used.
const HELP: &str = "usage: wildplan [argument..]

Plans the link of relocatable WebAssembly objects, and writes the plan of one module to standard
output. Each argument that doesn't begin with a dash names an object. A long option takes one dash
or two; its value follows an equals sign, or is the next argument where it isn't in brackets.

  --export NAME, --export-if-defined NAME, --export-dynamic
                                     what is exported
  --allow-undefined                  leave names that nothing defines to the host
  --shared-memory                    threads share the memory
  --entry NAME, -e NAME, --no-entry  the function at which the program begins (_start)
  --gc-sections, --no-gc-sections    drop what nothing leads to, or keep all
  --check-features, --no-check-features, --extra-features NAMES
                                     compare target features, and add some
  --stack-first, --no-stack-first    the stack before the data, or after it
  -z stack-size=N                    the bytes of the stack (65536)
  --initial-memory N, --max-memory N
                                     the sizes of the memory in bytes
  --import-memory[=NAME], --export-memory[=NAME]
                                     the memory's names
  --strip-all, -s, --strip-debug, -S, --keep-section NAME
                                     what of debug data and features is listed
  -o NAME                            nothing: no file is written
  --why                              write why each unit is kept
  --map                              write the sizes of what is kept
  --check FILE                       write whether FILE holds the listing of the plan
  --run NAME                         run the exported function NAME, and write how that ends
  --generate N                       plan generated objects, and write counts
  --replace I:FILE                   plan FILE in the place of object I
  --help, --version                  this text, and the version, as the only argument
";

/// What this word asks for about the program.
fn text_for(word: &str) -> Option<&'static str>
    ensures some { IfSome result (λ _. asks_about word.now ≡ true) }
    ensures none { IfNone result (asks_about word.now ≡ false) }
{
    if word == "--help" {
        Some(HELP)
    } else if word == "--version" {
        Some(VERSION)
    } else {
        None
    }
}

/// What a single argument asks for about the program: how it is used, or its version.
pub(crate) fn text_about(words: &[String]) -> Option<&'static str>
    ensures some { IfSome result (λ _. asks_about_program (texts words.now) ≡ true) }
    ensures none { IfNone result (asks_about_program (texts words.now) ≡ false) }
{
    match words {
        [word] => text_for(word.as_str()),
        _ => None,
    }
}
