// What the function codes of CMD 0x0F stand for.
ghost use Rattle.std.specs.Prelude.{◌≡◌};
ghost use Rattle.processor_spec.specs.Params.{known_function, writes as params_writes, asks_directory, asks_datalog};

#[tactic(auto, unfolding(processor_spec::specs::Params::known_function, processor_spec::specs::Params::writes))]
pub fn known_function(function: u8) -> bool
    ensures { result ≡ known_function function }
{
    function == 0xA1 || function == 0xA2 || writes(function)
}

#[tactic(auto, unfolding(processor_spec::specs::Params::writes))]
pub fn writes(function: u8) -> bool
    ensures { result ≡ params_writes function }
{
    function == 0xAA || function == 0xAB
}

#[tactic(auto, unfolding(processor_spec::specs::Params::asks_directory))]
pub fn asks_directory(function: u8, file: u16) -> bool
    ensures { result ≡ asks_directory function file }
{
    function == 0xA1 && file == 0
}

#[tactic(auto, unfolding(processor_spec::specs::Params::asks_datalog))]
pub fn asks_datalog(function: u8, code: u8) -> bool
    ensures { result ≡ asks_datalog function code }
{
    function == 0xA2 && code == 0xA5
}
