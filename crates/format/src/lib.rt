// The bytes of requests and answers: what is written is read back, and where bytes cease to be a request. The definitions stand in specs/.
#![tactic(auto)]

ghost use Rattle.format.specs.Ceases.{Ceases, Begins};
ghost use Rattle.format.specs.Written.{RequestsReadBack, AnswersReadBack};

// Each request that can be written is read back as it was written.
pub fn requests_read_back()
    ensures { RequestsReadBack }
{}

// Each answer that can be written is read back as it was written.
pub fn answers_read_back()
    ensures { AnswersReadBack }
{}

// The offset of bytes that are no request is not too early: with the byte that stands there, no others make one of them.
pub fn ceases()
    ensures { Ceases }
{}

// Nor is it too late: the bytes before it are the beginning of a request.
pub fn begins()
    ensures { Begins }
{}
