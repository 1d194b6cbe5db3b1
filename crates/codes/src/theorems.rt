// Theorems over the definitions of specs/. The functions have no work to do: the contract of each is a theorem, so that a check asks for its proof.
ghost use Rattle.codes.specs.Codewords.{CodewordsMeant};
ghost use Rattle.codes.specs.Exact.{OpensExactly};
ghost use Rattle.codes.specs.Worked.{WorkedSettings};

// An opening is accepted exactly when its code is valid and its setting accepted.
pub fn openings_stand()
    ensures { OpensExactly }
{}

// A valid code is a code of the decoder's theory, and its codewords are the theory's.
pub fn codewords_stand()
    ensures { CodewordsMeant }
{}

// Which settings are accepted and proposed in some cases.
pub fn worked_settings_stand()
    ensures { WorkedSettings }
{}
