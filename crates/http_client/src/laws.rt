ghost use Rattle.std.specs.Prelude.{ℕ, List, Ok, length};
ghost use Rattle.http_head.specs.declared.head.Method.{Method};
ghost use Rattle.http_wire.specs.Next.{IsHead};
ghost use Rattle.http_client.specs.Request.{request_head};
ghost use Rattle.http_client.specs.Sent.{CanBeSent, sent_head};

/// The head of a request that is written is read as the head of that method, target and body.
pub fn requests_are_read()
    ensures { (method : Method) (target host body : List ℕ) → CanBeSent method target host body
        → IsHead (request_head method target host (length body)) (Ok (sent_head method target (length body))) }
{}
